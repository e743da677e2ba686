// What steps say, as records in slots of the lent words, and the pass that sets them in their final places.
#![tactic(auto)]

mod block;

ghost use Rattle.std.specs.Prelude.{◌≡◌, ◌*◌, ◌+◌, ◌-◌, ◌<◌, ◌^◌, ◌≤◌, length};
ghost use Rattle.yaml_lexeme.specs.Record.{record_of, record_words};
ghost use Rattle.events.specs.Event.{brief_event, empty_of, opening_if};
ghost use Rattle.records.specs.Noted.{noted_number};
ghost use Rattle.sink.specs.Store.{put_list, put_note, put_record};
ghost use Rattle.sink.specs.StepTokens.{end_tokens, event_tokens, note_from, noted_words, opening_tokens, put_news, shifted};
ghost use Rattle.sink.specs.Settle.{front, settled_words, total_records};

use crate::block::put_block;
use events::{Event, Note, Opening};
use records::noted::Noted;
use records::token::record_of;
use records::{RECORD_WORDS, load, set_note, store};
use yaml_lexeme::{Kind, Token};
use yaml_text::Mark;

// Stores the record of a token in slot n, if there is room for it. Words and slot are no struct, here and below: each function may be given a
// slot below another bound, and callers count slots in other types and store at several.
// Inline, since each token goes through it and has two callers: called, it took a tenth to a third of a scan's instructions.
#[tactic(auto, using(crate::specs::Store::put_record_in, crate::specs::Store::put_record_out))]
#[inline(always)]
pub fn put_record(words: &mut [u32], n: usize, t: Token)
    requires { n < 2 ^ 60 }
    ensures { words.new ≡ put_record words.old n (record_of t) }
{
    let at = n * RECORD_WORDS;
    if at + RECORD_WORDS <= words.len() {
        store(words, at, &record_of(t));
    }
}

// Stores an empty token in slot n; the slot behind it. Inline, as `put_record`.
#[inline(always)]
fn put_empty_token(words: &mut [u32], n: usize, kind: Kind, m: Mark) -> usize
    requires { n < 2 ^ 41 }
    ensures { (result ≡ n + 1) × (words.new ≡ put_record words.old n (record_of (empty_of kind m))) }
{
    let t = Token {
        kind,
        start: m,
        end: m,
    };
    put_record(words, n, t);
    n + 1
}

// Stores k BlockEnds from slot n on; the slot behind them.
fn put_ends(words: &mut [u32], n: usize, k: u32, m: Mark) -> usize
    requires { n < 2 ^ 40 }
    ensures { (result ≡ n + k) × (words.new ≡ put_list words.old n (end_tokens k m)) }
{
    let end = n + k as usize;
    for i in n..end {
        put_empty_token(words, i, Kind::BlockEnd, m);
    }
    end
}

// Notes on the record of token n, if its slot is there, what goes in before it.
// Slot 0 is that of token base.
#[tactic(auto, using(crate::specs::Store::put_note_in, crate::specs::Store::put_note_out))]
fn put_note(words: &mut [u32], base: u32, n: u32, note: Noted)
    ensures { words.new ≡ put_note words.old (n - base) (noted_number note) }
{
    let at = n.saturating_sub(base) as usize * RECORD_WORDS;
    if at + RECORD_WORDS <= words.len() {
        set_note(words, at, note);
    }
}

#[tactic(auto, unfolding(crate::specs::StepTokens::noted_words))]
fn note(words: &mut [u32], base: u32, n: Note)
    ensures { words.new ≡ noted_words words.old (note_from base n) }
{
    match n {
        Note::Nothing => {}
        Note::Key(k) => put_note(words, base, k, Noted::Key),
        Note::Pair(k) => put_note(words, base, k, Noted::Pair),
        Note::Block(k) => put_note(words, base, k, Noted::Block),
    }
}

// Stores the empty token that comes first, if there is one, in slot n; the slot behind it.
#[tactic(auto, unfolding(crate::specs::StepTokens::opening_tokens, crate::specs::Store::put_list))]
fn put_opening(words: &mut [u32], n: usize, o: Opening, m: Mark) -> usize
    requires { n < 2 ^ 41 }
    ensures { (result ≡ n + length (opening_tokens o m)) × (words.new ≡ put_list words.old n (opening_tokens o m)) }
{
    match o {
        Opening::Nothing => n,
        Opening::BlockSequenceStart => put_empty_token(words, n, Kind::BlockSequenceStart, m),
        Opening::BlockMappingStart => put_empty_token(words, n, Kind::BlockMappingStart, m),
        Opening::FlowMappingStart => put_empty_token(words, n, Kind::FlowMappingStart, m),
        Opening::FlowMappingEnd => put_empty_token(words, n, Kind::FlowMappingEnd, m),
    }
}

// The same where a test holds. Test and token are no Option: the token is a constant of `put_brief`'s L, the test its caller's.
fn put_led(words: &mut [u32], n: usize, led: bool, o: Opening, m: Mark) -> usize
    requires { n < 2 ^ 41 }
    ensures { (result ≡ n + length (opening_tokens (opening_if led o) m)) × (words.new ≡ put_list words.old n (opening_tokens (opening_if led o) m)) }
{
    if led {
        return put_opening(words, n, o, m);
    }
    n
}

// Stores what a lexeme says from slot n on.
fn put_event(words: &mut [u32], n: usize, e: Event)
    requires { n < 2 ^ 40 }
    ensures { words.new ≡ put_list words.old n (event_tokens e) }
{
    let t = e.token;
    let m = t.start;
    let o = e.opening;
    let k = put_ends(words, n, e.closed, m);
    let j = put_opening(words, k, o, m);
    put_record(words, j, t);
}

// Stores what a step found from slot n on: so many blocks end here, then what its lexeme says. Slot 0 is that of token base.
pub fn put_news(words: &mut [u32], base: u32, n: u32, here: Mark, ended: u32, e: Event)
    ensures { words.new ≡ put_news words.old n here ended (shifted base e) }
{
    let k = put_ends(words, n as usize, ended, here);
    let o = e.note;
    note(words, base, o);
    put_event(words, k, e)
}

// The empty token that a token with its own way (`put_brief`) may stand behind.
pub trait Leads {
    ghost use Rattle.events.specs.declared.Opening.{Opening};

    ghost OPENING: { Opening };

    const OPENING: Opening;
}

// The end of an implicit pair.
pub struct PairEnd;

impl Leads for PairEnd {
    ghost use Rattle.events.specs.declared.Opening.TheVariants.{FlowMappingEnd};

    ghost OPENING = { FlowMappingEnd };

    const OPENING: Opening = Opening::FlowMappingEnd;
}

// The start of the block of a '-'.
pub struct BlockStart;

impl Leads for BlockStart {
    ghost use Rattle.events.specs.declared.Opening.TheVariants.{BlockSequenceStart};

    ghost OPENING = { BlockSequenceStart };

    const OPENING: Opening = Opening::BlockSequenceStart;
}

// The same of one token, behind that empty one or not. Called in one place for each L, both instances are compiled into the loop.
pub fn put_brief<L: Leads>(words: &mut [u32], n: u32, here: Mark, ended: u32, led: bool, t: Token)
    ensures { words.new ≡ put_news words.old n here ended (brief_event led L.OPENING t) }
{
    let k = put_ends(words, n as usize, ended, here);
    let j = put_led(words, k, led, L::OPENING, t.start);
    put_record(words, j, t)
}

// One pass from the back sets n noted records in their final places among t.
pub fn settle(words: &mut [u32], n: u32, t: u32)
    requires { (t ≡ total_records (front n words.old)) × (t * record_words ≤ length words.old) }
    ensures { words.new ≡ settled_words n words.old }
{
    let mut j = t as usize;
    for i in (0..n as usize).rev() {
        // What is left stands in its place.
        if j == i + 1 {
            break;
        }
        let x = load(words, i * RECORD_WORDS);
        j = put_block(words, j, x);
    }
}
