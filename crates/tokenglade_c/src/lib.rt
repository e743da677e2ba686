// The static library: the entries of `tokenglade`, for callers in C and Rust.
#![tactic(auto)]

ghost use Rattle.tokenglade.specs.Job.{JobContinues};
ghost use Rattle.tokenglade.specs.Next.{Continues};
ghost use Rattle.tokenglade.specs.Numbers.{GivesNumbers};

use driver::held::HELD_WORDS;
use job::JOB_WORDS;
use records::RECORD_WORDS;

// Tokens and decoded text of a text, in lent words and bytes; and the numbers of the answer.
#[unsafe(no_mangle)]
pub extern "C" fn tokenglade_scan(
    text: &[u8],
    words: &mut [u32],
    bytes: &mut [u8],
    answer: &mut [u32; 6],
)
    ensures { GivesNumbers text.now words.old bytes.old words.new bytes.new answer.new }
{
    tokenglade::tokenglade_scan(text, words, bytes, answer);
}

// The next token of a text; and the numbers of the answer.
#[unsafe(no_mangle)]
pub extern "C" fn tokenglade_next(
    state: &mut [u32; HELD_WORDS],
    text: &[u8],
    words: &mut [u32],
    bytes: &mut [u8],
    token: &mut [u32; RECORD_WORDS],
    answer: &mut [u32; 5],
)
    ensures { Continues text.now state.old words.old bytes.old state.new words.new bytes.new token.new answer.new }
{
    tokenglade::tokenglade_next(state, text, words, bytes, token, answer);
}

// The next seed of a job sheet, or the closing record.
#[unsafe(no_mangle)]
pub extern "C" fn tokenglade_job(
    state: &mut [u32; JOB_WORDS],
    text: &[u8],
    words: &mut [u32],
    bytes: &mut [u8],
    seed: &mut [u32; 2],
    closing: &mut [u32; 7],
)
    ensures { JobContinues text.now state.old words.old bytes.old state.new words.new bytes.new seed.new closing.new }
{
    tokenglade::tokenglade_job(state, text, words, bytes, seed, closing);
}
