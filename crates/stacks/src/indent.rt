// The indent stack. An indent is stored as indent + 1; `edge` is a column + 1. An entry is a word: the indent that is
// taken back when it goes, times two, and 1 where a BlockEnd is given then.
ghost use Rattle.std.specs.Prelude.{◌≡◌, ◌+◌, ◌^◌, ◌<◌, ◌≤◌, length, set};
ghost use Rattle.yaml_scan.specs.Indent.{drop_for, drop_non_ending, top_ends};
ghost use Rattle.stacks.specs.Stack.{entry_words};
ghost use Rattle.stacks.specs.Indent.{Low, Lowers, Unrolls, entries_of, left_below, most_at, word_of};
ghost use Rattle.stacks.specs.Roll.{Rolls, Stacks, full_at, one_more};

use crate::STACK_WORDS;
use chars::refuse::refuse;
use yaml_text::{Mark, Refusal};

// The indent, and how many entries are stacked. The bounds on both (`Low`) stand in the contracts: that of the depth is the
// limit that the caller gave, which no type can name.
#[derive(Clone, Copy)]
pub struct Indents {
    pub indent: u32,
    pub depth: usize,
}

// Whether a start token is to be added, and the indents.
#[derive(Clone, Copy)]
pub struct Rolled {
    pub starts: bool,
    pub indents: Indents,
}

// How many blocks ended, and the indents left.
#[derive(Clone, Copy)]
pub struct Unrolled {
    pub ended: u32,
    pub indents: Indents,
}

// Whether the top entry ends in BlockEnd.
pub fn top_ends(stacks: &[u32; STACK_WORDS], depth: usize) -> bool
    requires { depth ≤ length stacks.now }
    ensures { result ≡ top_ends (entries_of stacks.now depth) }
{
    0 < depth && stacks[depth - 1] % 2 == 1
}

// What is left when the entry at that place goes: those below it, and the indent that is taken back.
fn left_below(stacks: &[u32; STACK_WORDS], place: usize) -> Indents
    requires { place < entry_words }
    ensures { result ≡ left_below stacks.now place }
{
    Indents {
        indent: (stacks[place] / 2).min(1_048_577 + place as u32),
        depth: place,
    }
}

// Entries go while the indent is above the column.
pub fn unroll(stacks: &[u32; STACK_WORDS], edge: u32, from: Indents) -> Unrolled
    requires { Low entry_words from }
    ensures { Unrolls stacks.now edge from result }
{
    let mut indents = from;
    let mut ended = 0;
    for place in (0..from.depth).rev() {
        if indents.indent <= edge {
            break;
        }
        ended += stacks[place] % 2;
        indents = left_below(stacks, place);
    }
    Unrolled { ended, indents }
}

// The entries that end no block go, as a block scalar does it.
pub fn drop_non_ending(stacks: &[u32; STACK_WORDS], from: Indents) -> Indents
    requires { Low entry_words from }
    ensures { Lowers stacks.now from result (drop_non_ending from.indent (entries_of stacks.now from.depth)) }
{
    let mut indents = from;
    for place in (0..from.depth).rev() {
        if stacks[place] % 2 == 1 {
            break;
        }
        indents = left_below(stacks, place);
    }
    indents
}

// A non-ending top entry is dropped if the indent is at most the column.
fn drop_for(stacks: &[u32; STACK_WORDS], edge: u32, from: Indents) -> Indents
    requires { Low entry_words from }
    ensures { Lowers stacks.now from result (drop_for edge from.indent (entries_of stacks.now from.depth)) }
{
    if from.depth == 0 || edge < from.indent || top_ends(stacks, from.depth) {
        return from;
    }
    left_below(stacks, from.depth - 1)
}

// An entry as a word.
fn entry_word(indent: u32, ends: bool) -> u32
    requires { indent < 2 ^ 31 }
    ensures { result ≡ word_of indent ends }
{
    indent * 2 + u32::from(ends)
}

// 48, at m: the stack is full.
pub fn full<T>(m: Mark) -> Result<T, Refusal>
    ensures { result ≡ Err (full_at m) }
{
    refuse(48, m)
}

// One entry more, and its indent; there is room for it.
pub fn push(stacks: &mut [u32; STACK_WORDS], indent: u32, ends: bool, from: Indents) -> Indents
    requires { (from.depth < entry_words) × (from.indent ≤ most_at from.depth) }
    ensures { (result ≡ one_more indent from) × (stacks.new ≡ set stacks.old from.depth (word_of from.indent ends)) }
{
    let depth = from.depth;
    stacks[depth] = entry_word(from.indent, ends);
    Indents {
        indent: indent,
        depth: depth + 1,
    }
}

// One entry more, and its indent, if the limit allows it.
fn stack(
    stacks: &mut [u32; STACK_WORDS],
    limit: usize,
    m: Mark,
    indent: u32,
    ends: bool,
    from: Indents,
) -> Result<Indents, Refusal>
    requires { (limit ≤ entry_words) × (from.indent ≤ most_at from.depth) × (indent ≤ most_at (from.depth + 1)) }
    ensures { Stacks stacks.old stacks.new limit m indent ends from result }
{
    if limit <= from.depth {
        return full(m);
    }
    Ok(push(stacks, indent, ends, from))
}

// K4, at level 0. 48, at m: the stack is full.
pub fn roll(
    stacks: &mut [u32; STACK_WORDS],
    limit: usize,
    m: Mark,
    edge: u32,
    from: Indents,
) -> Result<Rolled, Refusal>
    requires { (limit ≤ entry_words) × Low limit from × (edge ≤ 1_048_577) }
    ensures { Rolls stacks.old stacks.new limit m edge from result }
{
    let d = drop_for(stacks, edge, from);
    if edge <= d.indent {
        return Ok(Rolled {
            starts: false,
            indents: d,
        });
    }
    let i = stack(stacks, limit, m, edge, true, d)?;
    Ok(Rolled {
        starts: true,
        indents: i,
    })
}
