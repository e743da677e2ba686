// Frames: the candidate and the flow level's data of each flow level, six words each.
// C holds them as words, so both are read out of words here and stored as words. Their types are those of `yaml_scan`, which
// has no code: an impl of `From` would have to stand there.
// Each function asks for a level of at most 255, the highest limit that there is. A level is counted and compared as its limit
// is, a usize.
ghost use Rattle.std.specs.Prelude.{◌≡◌, ◌≤◌};
ghost use Rattle.yaml_scan.specs.declared.Candidate.TheVariants as candidate;
ghost use Rattle.yaml_scan.specs.Keys.{is_required};
ghost use Rattle.stacks.specs.Frame.{SetsKey, SetsLevel, key_of, level_of, level_word};

use crate::{ENTRIES, FRAME_WORDS, STACK_WORDS};
use yaml_scan::{Candidate, Level};
use yaml_text::Mark;

// A level as a word.
#[tactic(auto, unfolding(crate::specs::Frame::level_word))]
fn level_word(l: Level) -> u32
    ensures { result ≡ level_word l }
{
    u32::from(l.sequence)
        + 2 * u32::from(l.colon)
        + 4 * u32::from(l.question)
        + 8 * u32::from(l.implicit)
}

// The candidate of a level.
#[tactic(auto, unfolding(crate::specs::Frame::key_at))]
pub fn key(stacks: &[u32; STACK_WORDS], level: usize) -> Candidate
    requires { level ≤ 255 }
    ensures { result ≡ key_of stacks.now level }
{
    let at = ENTRIES + level * FRAME_WORDS;
    let k = stacks[at];
    if k == 0 {
        return Candidate::Absent;
    }
    let col = stacks[at + 4].min(1_048_576);
    let m = Mark {
        index: stacks[at + 2],
        line: stacks[at + 3],
        col: col,
    };
    Candidate::Possible {
        required: k == 2,
        token_number: stacks[at + 1],
        mark: m,
    }
}

// Whether the candidate of a level is required.
pub fn is_required(stacks: &[u32; STACK_WORDS], level: usize) -> bool
    requires { level ≤ 255 }
    ensures { result ≡ is_required (key_of stacks.now level) }
{
    stacks[ENTRIES + level * FRAME_WORDS] == 2
}

// Takes the candidate of a level away.
pub fn clear_key(stacks: &mut [u32; STACK_WORDS], level: usize)
    requires { level ≤ 255 }
    ensures { SetsKey stacks.old stacks.new level candidate.Absent }
{
    stacks[ENTRIES + level * FRAME_WORDS] = 0;
}

// Saves the candidate of a level.
pub fn set_key(stacks: &mut [u32; STACK_WORDS], level: usize, required: bool, number: u32, m: Mark)
    requires { (level ≤ 255) × (m.col ≤ 1_048_576) }
    ensures { SetsKey stacks.old stacks.new level (candidate.Possible required number m) }
{
    let at = ENTRIES + level * FRAME_WORDS;
    stacks[at] = 1 + u32::from(required);
    stacks[at + 1] = number;
    stacks[at + 2] = m.index;
    stacks[at + 3] = m.line;
    stacks[at + 4] = m.col;
}

// The data of a level.
#[tactic(auto, unfolding(crate::specs::Frame::level_bits))]
pub fn level_data(stacks: &[u32; STACK_WORDS], level: usize) -> Level
    requires { level ≤ 255 }
    ensures { result ≡ level_of stacks.now level }
{
    let w = stacks[ENTRIES + level * FRAME_WORDS + 5];
    Level {
        sequence: w % 2 == 1,
        colon: w / 2 % 2 == 1,
        question: w / 4 % 2 == 1,
        implicit: w / 8 % 2 == 1,
    }
}

pub fn set_level(stacks: &mut [u32; STACK_WORDS], level: usize, l: Level)
    requires { level ≤ 255 }
    ensures { SetsLevel stacks.old stacks.new level l }
{
    stacks[ENTRIES + level * FRAME_WORDS + 5] = level_word(l);
}
