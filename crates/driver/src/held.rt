// What is held between two calls, as words: the stacks, then what waits, the counts, and the state of the scan. C holds it as an
// array of words, so that it is no struct.
ghost use Rattle.std.specs.Prelude.{◌≡◌, ◌^◌, ◌<◌, ◌≤◌, length};
ghost use Rattle.driver.specs.Held.{Modest, counts_held, place_held, put_counts, put_state, state_held};

use chars::mark::Place;
use events::Counts;
use rooms::as_word;
use stacks::STACK_WORDS;
use stacks::indent::Indents;
use states::State;
use yaml_scan::Limits;
use yaml_text::Mark;

// The stacks are the words before these.
// 0: fresh; 1: scanning; 2: StreamEnd was scanned; any other: refused.
pub const PHASE: usize = STACK_WORDS;
// The number of the token in slot 0.
pub const BASE: usize = STACK_WORDS + 1;
// The first slot that waits.
pub const SLOT: usize = STACK_WORDS + 2;
// The slot up to which tokens can be given.
pub const UNTIL: usize = STACK_WORDS + 3;
// The flow level whose candidate the token there may be.
pub const LEVEL: usize = STACK_WORDS + 4;
// Three words: the counts.
pub const COUNTS: usize = STACK_WORDS + 5;
// Nine words: the state.
pub const STATE: usize = STACK_WORDS + 8;
// The mark of the state, or of a refusal.
pub const MARK: usize = STACK_WORDS + 9;
// The refusal's number.
pub const NUMBER: usize = STACK_WORDS + 17;

pub const HELD_WORDS: usize = 1_809;

// The place in the text.
fn load_place(held: &[u32; HELD_WORDS], text: &[u8]) -> Place
    requires { length text.now ≤ 1_048_576 }
    ensures { result ≡ place_held text.now held.now }
{
    let len = as_word(text.len());
    let at = held[STATE].min(len);
    let index = held[MARK].min(1_048_576 + at - len);
    let mark = Mark {
        index,
        line: held[MARK + 1].min(index + 1),
        col: held[MARK + 2].min(index),
    };
    Place {
        at: at as usize,
        mark,
    }
}

pub fn load_state(limits: Limits, held: &[u32; HELD_WORDS], text: &[u8]) -> State
    requires { Modest limits × (length text.now ≤ 1_048_576) }
    ensures { result ≡ state_held limits text.now held.now }
{
    let p = load_place(held, text);
    let flags = held[STATE + 4];
    let depth = held[STATE + 7].min(as_word(limits.entries));
    let i = Indents {
        indent: held[STATE + 6].min(1_048_577 + depth),
        depth: depth as usize,
    };
    State {
        leading_whitespace: flags % 2 == 1,
        simple_key_allowed: flags / 2 % 2 == 1,
        adjacent_value_allowed_at: held[STATE + 5],
        indents: i,
        place: p,
        flow_level: held[STATE + 8].min(as_word(limits.levels)) as usize,
    }
}

// The counts that a text may come to up to the place.
pub fn load_counts(held: &[u32; HELD_WORDS], text: &[u8]) -> Counts
    requires { length text.now ≤ 1_048_576 }
    ensures { result ≡ counts_held text.now held.now }
{
    let at = held[STATE].min(as_word(text.len()));
    Counts {
        count: held[COUNTS].min(1 + 512 * at),
        put_in: held[COUNTS + 1].min(2 * at),
        used: held[COUNTS + 2].min(3 * at),
    }
}

#[tactic(auto, unfolding(crate::specs::Held::state_words), using(stacks::specs::Bit::bit_low))]
pub fn store_state(held: &mut [u32; HELD_WORDS], s: State)
    requires { (s.place.at < 2 ^ 32) × (s.indents.depth < 2 ^ 32) × (s.flow_level < 2 ^ 32) }
    ensures { held.new ≡ put_state held.old s }
{
    let p = s.place;
    let m = p.mark;
    let i = s.indents;
    held[STATE] = as_word(p.at);
    held[MARK] = m.index;
    held[MARK + 1] = m.line;
    held[MARK + 2] = m.col;
    held[STATE + 4] = s.leading_whitespace as u32 + 2 * (s.simple_key_allowed as u32);
    held[STATE + 5] = s.adjacent_value_allowed_at;
    held[STATE + 6] = i.indent;
    held[STATE + 7] = as_word(i.depth);
    held[STATE + 8] = as_word(s.flow_level);
}

pub fn store_counts(held: &mut [u32; HELD_WORDS], n: Counts)
    ensures { held.new ≡ put_counts held.old n }
{
    held[COUNTS] = n.count;
    held[COUNTS + 1] = n.put_in;
    held[COUNTS + 2] = n.used;
}
