// One token at a time: each call gives the next token of a text.
#![tactic(auto)]

mod give;
mod phase;
mod start;

ghost use Rattle.std.specs.Prelude.{◌*◌, ◌<◌, ◌≤◌, false, ◌≡◌, length};
ghost use Rattle.yaml_lexeme.specs.Record.{record_words};
ghost use Rattle.yaml_scan.specs.Scan.{standard};
ghost use Rattle.yaml_stream.specs.Stream.{least_records};
ghost use Rattle.stream.specs.Holds.{Promises};
ghost use Rattle.driver.specs.Held.{Modest, phase_at, word};
ghost use Rattle.stream.specs.ScansOn.{ScansOn};
ghost use Rattle.stream.specs.Words.{MayGive, close_held, has_some, last_held, no_token};

use crate::give::{give_first, to_front};
use crate::phase::Phase;
use crate::start::{held_refusal, hold_refusal, refused, start};
use driver::held::{BASE, HELD_WORDS, PHASE, SLOT, UNTIL};
use driver::{Outcome, all_steps, outside, standard};
use events::Counts;
use records::RECORD_WORDS;
use yaml_scan::Limits;
use yaml_text::Refusal;

// The answer of a call, where it is no refusal.
#[derive(Clone, Copy)]
pub enum Next {
    // Its record was written.
    Token,
    // StreamEnd was given before.
    Ended,
}

// Records that the lent words must hold.
pub const LEAST_RECORDS: usize = 4_400;

// StreamEnd was scanned: what waits can all be given.
#[tactic(auto, using(crate::proofs::Lends::closed))]
fn close(held: &mut [u32; HELD_WORDS], m: Counts)
    ensures { held.new ≡ close_held held.old m }
{
    held[PHASE] = Phase::Closed as u32;
    held[UNTIL] = m.count - held[BASE].min(m.count);
}

// Whether a token can be given.
#[tactic(auto, unfolding(crate::specs::Words::has_some))]
fn has_some(held: &[u32; HELD_WORDS], words: &[u32]) -> bool
    ensures { result ≡ has_some held.now (length words.now) }
{
    if words.len() < LEAST_RECORDS * RECORD_WORDS {
        return false;
    }
    held[SLOT] < held[UNTIL]
}

// The first token that waits is given, if it can be; whether it was. Its record is written where C lent it, so that no Option holds it.
#[tactic(auto, using(crate::proofs::Lends::some_told))]
fn gives(held: &mut [u32; HELD_WORDS], words: &mut [u32], token: &mut [u32; RECORD_WORDS]) -> bool
    ensures { MayGive held.old words.old token.old held.new words.new token.new result }
{
    if has_some(held, words) {
        give_first(held, words, token);
        return true;
    }
    false
}

// What is held says: a refusal, or the end.
#[tactic(auto, using(crate::proofs::Lends::last_said))]
fn last_answer(held: &[u32; HELD_WORDS], token: &mut [u32; RECORD_WORDS]) -> Result<Next, Refusal>
    ensures { (result ≡ last_held held.now) × (token.new ≡ no_token) }
{
    token.fill(0);
    match Phase::from(held[PHASE]) {
        Phase::Closed => Ok(Next::Ended),
        _ => Err(held_refusal(held)),
    }
}

// Steps, as many as are made at once; what they come to is held.
fn scan_on(
    limits: Limits,
    held: &mut [u32; HELD_WORDS],
    text: &[u8],
    words: &mut [u32],
    bytes: &mut [u8],
)
    requires { Modest limits × (length text.now ≤ limits.bytes) × (least_records * record_words ≤ length words.old) }
    ensures { ScansOn limits text.now held.old words.old bytes.old held.new words.new bytes.new }
{
    to_front(held, words);
    let o = all_steps(limits, text, true, held, words, bytes);
    match o {
        Ok(Outcome::Scanned(m)) => {
            close(held, m);
        }
        Ok(Outcome::Ready) => {}
        Err(f) => {
            hold_refusal(held, f);
        }
    }
}

// A call where more has to be scanned, behind the first. 1 and 52 come here only where text or words are others than before.
#[tactic(auto, using(crate::proofs::Called::lent_others))]
fn go_on(
    limits: Limits,
    held: &mut [u32; HELD_WORDS],
    text: &[u8],
    words: &mut [u32],
    bytes: &mut [u8],
    token: &mut [u32; RECORD_WORDS],
) -> Result<Next, Refusal>
    requires { Modest limits × (1 ≤ limits.entries) × (word held.old phase_at ≡ 1) × (has_some held.old (length words.old) ≡ false) }
    ensures { Promises limits text.now held.old words.old bytes.old held.new words.new bytes.new token.new result }
{
    if limits.bytes < text.len() {
        return refused(held, token, outside(1));
    }
    if words.len() < LEAST_RECORDS * RECORD_WORDS {
        return refused(held, token, outside(52));
    }
    scan_on(limits, held, text, words, bytes);
    if gives(held, words, token) {
        return Ok(Next::Token);
    }
    last_answer(held, token)
}

// A call where nothing can be given at once. It stands apart from its caller: so giving a token stays short there.
#[inline(never)]
fn next_scanned(
    limits: Limits,
    held: &mut [u32; HELD_WORDS],
    text: &[u8],
    words: &mut [u32],
    bytes: &mut [u8],
    token: &mut [u32; RECORD_WORDS],
) -> Result<Next, Refusal>
    requires { Modest limits × (1 ≤ limits.entries) × (has_some held.old (length words.old) ≡ false) }
    ensures { Promises limits text.now held.old words.old bytes.old held.new words.new bytes.new token.new result }
{
    match Phase::from(held[PHASE]) {
        Phase::Fresh => start(limits, held, text, words, token),
        Phase::Scanning => go_on(limits, held, text, words, bytes, token),
        _ => last_answer(held, token),
    }
}

// The next token of a text. What is held is all zero at first; held, text, words and bytes are those of the call before.
// Inline, so that a token that waits is given in its caller.
#[tactic(auto, using(crate::proofs::GivesToken::scanned))]
#[inline(always)]
pub fn next_token(
    held: &mut [u32; HELD_WORDS],
    text: &[u8],
    words: &mut [u32],
    bytes: &mut [u8],
    token: &mut [u32; RECORD_WORDS],
) -> Result<Next, Refusal>
    ensures { Promises standard text.now held.old words.old bytes.old held.new words.new bytes.new token.new result }
{
    if gives(held, words, token) {
        return Ok(Next::Token);
    }
    next_scanned(standard(), held, text, words, bytes, token)
}
