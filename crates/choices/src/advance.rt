// After gaps, lapse and unrolling to the column.
ghost use Rattle.std.specs.Prelude.{◌≡◌, ◌^◌, ◌<◌, ◌≤◌, length};
ghost use Rattle.stacks.specs.Indent.{Low};
ghost use Rattle.stacks.specs.Stack.{entry_words, stack_words};
ghost use Rattle.states.specs.Fetch.{Ready};
ghost use Rattle.choices.specs.Advance.{Advances, UnrollsHere};

use gaps::skip_gap;
use stacks::STACK_WORDS;
use stacks::indent::{Unrolled, unroll};
use states::State;
use yaml_scan::Limits;
use yaml_text::Refusal;

// A state before a token, and how many blocks ended there.
#[derive(Clone, Copy)]
pub struct Advanced {
    pub state: State,
    pub ended: u32,
}

// To the column; in flow nothing ends.
fn unrolled(s: State, stacks: &[u32; STACK_WORDS]) -> Unrolled
    requires { Low entry_words s.indents × (s.place.mark.col < 2 ^ 31) }
    ensures { UnrollsHere stacks.now s result }
{
    let i = s.indents;
    if 0 < s.flow_level {
        return Unrolled {
            ended: 0,
            indents: i,
        };
    }
    unroll(stacks, s.place.mark.col + 1, i)
}

// The gap, then the lapse, then the unrolling.
fn to_token(
    limits: Limits,
    text: &[u8],
    s: State,
    stacks: &mut [u32; STACK_WORDS],
) -> Result<Advanced, Refusal>
    requires { Ready limits text.now stacks.old s }
    ensures { Advances limits text.now stacks.old stacks.new s result × (length stacks.new ≡ stack_words) }
{
    let g = skip_gap(
        text,
        s.place,
        0 < s.flow_level,
        s.simple_key_allowed,
        s.leading_whitespace,
    )?;
    let t = s.moved(g.place, g.leading_whitespace, g.simple_key_allowed);
    t.lapse_key(stacks)?;
    let u = unrolled(t, stacks);
    Ok(Advanced {
        state: t.with_indents(u.indents),
        ended: u.ended,
    })
}

// The same where more words are lent than the stacks: those behind them stay.
pub fn to_next_token(
    limits: Limits,
    text: &[u8],
    s: State,
    stacks: &mut [u32],
) -> Result<Advanced, Refusal>
    requires { Ready limits text.now stacks.old s }
    ensures { Advances limits text.now stacks.old stacks.new s result }
{
    let first = stacks.first_chunk_mut::<STACK_WORDS>().unwrap();
    to_token(limits, text, s, first)
}
