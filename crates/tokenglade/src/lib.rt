// The entries for callers in C and Rust: what `tokenglade_c` exports.
#![tactic(auto)]

ghost use Rattle.std.specs.Prelude.{◌≡◌};
ghost use Rattle.scanner.specs.Promise.{verdict_of};
ghost use Rattle.tokenglade.specs.Job.{JobContinues, closed_numbers, closing_numbers, seed_numbers};
ghost use Rattle.tokenglade.specs.Next.{Continues, next_numbers};
ghost use Rattle.tokenglade.specs.Numbers.{GivesNumbers, numbers};

use driver::held::HELD_WORDS;
use job::{JOB_WORDS, next_seed};
use records::RECORD_WORDS;
use scanner::{Refused, Sizes, scan};
use stream::{Next, next_token};
use yaml_job::{Closing, JobAnswer};
use yaml_text::Refusal;

// The refusal's number or 0, its mark, T and D.
pub fn numbers_of(a: Result<Sizes, Refused>) -> [u32; 6]
    ensures { result ≡ numbers (verdict_of a) }
{
    match a {
        Ok(n) => [0, 0, 0, 0, n.tokens, n.bytes],
        Err(r) => {
            let f = r.refusal;
            let m = f.mark;
            let n = r.sizes;
            [f.number, m.index, m.line, m.col, n.tokens, n.bytes]
        }
    }
}

// Tokens and decoded text of a text, in lent words and bytes; and the numbers of the answer.
pub fn tokenglade_scan(text: &[u8], words: &mut [u32], bytes: &mut [u8], answer: &mut [u32; 6])
    ensures { GivesNumbers text.now words.old bytes.old words.new bytes.new answer.new }
{
    *answer = numbers_of(scan(text, words, bytes));
}

// The numbers of a call's answer.
#[tactic(auto, unfolding(crate::specs::Next::next_numbers))]
fn next_numbers(a: Result<Next, Refusal>) -> [u32; 5]
    ensures { result ≡ next_numbers a }
{
    match a {
        Ok(_) => [0; 5],
        Err(f) => {
            let m = f.mark;
            [f.number, m.index, m.line, m.col, 0]
        }
    }
}

// The next token of a text; and the numbers of the answer.
pub fn tokenglade_next(
    state: &mut [u32; HELD_WORDS],
    text: &[u8],
    words: &mut [u32],
    bytes: &mut [u8],
    token: &mut [u32; RECORD_WORDS],
    answer: &mut [u32; 5],
)
    ensures { Continues text.now state.old words.old bytes.old state.new words.new bytes.new token.new answer.new }
{
    *answer = next_numbers(next_token(state, text, words, bytes, token));
}

// A seed's value and the running count.
#[tactic(auto, unfolding(crate::specs::Job::seed_numbers))]
fn seed_numbers(a: JobAnswer) -> [u32; 2]
    ensures { result ≡ seed_numbers a }
{
    match a {
        JobAnswer::Seed { value, count } => [value, count],
        JobAnswer::Closed(_) | JobAnswer::Lost => [0, 0],
    }
}

// The closing record: 0, a seed was handed over; 1, done, and the count; 2, not done, the count, and the refusal.
#[tactic(auto, unfolding(crate::specs::Job::closing_numbers))]
fn closing_numbers(a: JobAnswer) -> [u32; 7]
    ensures { result ≡ closing_numbers a }
{
    match a {
        JobAnswer::Seed { .. } => [0; 7],
        JobAnswer::Closed(c) => closed_numbers(c),
        JobAnswer::Lost => [2, 0, 0, 0, 0, 0, 0],
    }
}

#[tactic(auto, unfolding(crate::specs::Job::closed_numbers))]
fn closed_numbers(c: Closing) -> [u32; 7]
    ensures { result ≡ closed_numbers c }
{
    match c {
        Closing::Done { count } => [1, count, 0, 0, 0, 0, 0],
        Closing::NotDone {
            number,
            mark,
            count,
        } => [2, count, number, mark.index, mark.line, mark.col, 0],
    }
}

// The next seed of a job sheet, or the closing record.
pub fn tokenglade_job(
    state: &mut [u32; JOB_WORDS],
    text: &[u8],
    words: &mut [u32],
    bytes: &mut [u8],
    seed: &mut [u32; 2],
    closing: &mut [u32; 7],
)
    ensures { JobContinues text.now state.old words.old bytes.old state.new words.new bytes.new seed.new closing.new }
{
    let a = next_seed(state, text, words, bytes);
    *seed = seed_numbers(a);
    *closing = closing_numbers(a);
}
