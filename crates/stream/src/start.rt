// The first call, and refusals.
ghost use Rattle.std.specs.Prelude.{◌≡◌, length};
ghost use Rattle.yaml_text.specs.Mark.{origin};
ghost use Rattle.yaml_stream.specs.Stream.{fresh};
ghost use Rattle.driver.specs.Held.{Modest};
ghost use Rattle.stream.specs.Start.{Starts, begun_held};
ghost use Rattle.stream.specs.Words.{no_token, put_refusal, refusal_held, refused_held};
ghost use Rattle.yaml_lexeme.specs.declared.Kind.TheVariants as kind;
ghost use Rattle.yaml_lexeme.specs.Record.{record_of};
ghost use Rattle.events.specs.Event.{empty_of};

use crate::phase::Phase;
use crate::{LEAST_RECORDS, Next};
use driver::held::{BASE, HELD_WORDS, MARK, NUMBER, PHASE, SLOT, UNTIL, store_counts, store_state};
use driver::outside;
use events::Counts;
use records::RECORD_WORDS;
use records::token::record_of;
use states::State;
use validity::check_text;
use yaml_lexeme::{Kind, Token};
use yaml_scan::Limits;
use yaml_text::{Mark, Refusal};

// A refusal is held, which stands for ever.
pub(crate) fn hold_refusal(held: &mut [u32; HELD_WORDS], f: Refusal)
    ensures { held.new ≡ put_refusal held.old f }
{
    let m = f.mark;
    held[PHASE] = Phase::Refused as u32;
    held[MARK] = m.index;
    held[MARK + 1] = m.line;
    held[MARK + 2] = m.col;
    held[NUMBER] = f.number;
}

// The refusal that is held.
pub(crate) fn held_refusal(held: &[u32; HELD_WORDS]) -> Refusal
    ensures { result ≡ refusal_held held.now }
{
    let mark = Mark {
        index: held[MARK],
        line: held[MARK + 1],
        col: held[MARK + 2],
    };
    Refusal {
        number: held[NUMBER],
        mark,
    }
}

// A refusal where nothing can be given.
pub(crate) fn refused(
    held: &mut [u32; HELD_WORDS],
    token: &mut [u32; RECORD_WORDS],
    f: Refusal,
) -> Result<Next, Refusal>
    ensures { (result ≡ Err f) × (held.new ≡ refused_held held.old f) × (token.new ≡ no_token) }
{
    hold_refusal(held, f);
    held[SLOT] = 0;
    held[UNTIL] = 0;
    token.fill(0);
    Err(f)
}

// StreamStart is given, and the scan begins behind it.
#[tactic(auto, using(crate::proofs::Begins::begins))]
fn begin(held: &mut [u32; HELD_WORDS], token: &mut [u32; RECORD_WORDS])
    ensures { (held.new ≡ begun_held held.old) × (token.new ≡ record_of (empty_of kind.StreamStart origin)) }
{
    held.fill(0);
    let s = State::begin();
    let n = Counts {
        count: 1,
        put_in: 0,
        used: 0,
    };
    store_state(held, s);
    store_counts(held, n);
    held[PHASE] = Phase::Scanning as u32;
    held[BASE] = 1;
    let m = s.place.mark;
    *token = record_of(Token {
        kind: Kind::StreamStart,
        start: m,
        end: m,
    });
}

// 1; 2 or 3, of the whole text; then 52; else StreamStart.
#[tactic(auto, using(crate::proofs::Begins::text_begins))]
pub(crate) fn start(
    limits: Limits,
    held: &mut [u32; HELD_WORDS],
    text: &[u8],
    words: &[u32],
    token: &mut [u32; RECORD_WORDS],
) -> Result<Next, Refusal>
    requires { Modest limits }
    ensures { Starts held.old held.new token.new result (fresh limits text.now (length words.now)) }
{
    if limits.bytes < text.len() {
        return refused(held, token, outside(1));
    }
    if let Err(f) = check_text(text) {
        return refused(held, token, f);
    }
    if words.len() / RECORD_WORDS < LEAST_RECORDS {
        return refused(held, token, outside(52));
    }
    begin(held, token);
    Ok(Next::Token)
}
