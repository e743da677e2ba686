// The one-call entry.
#![tactic(auto)]

mod run;

ghost use Rattle.std.specs.Prelude.{◌≡◌, length};
ghost use Rattle.yaml_scan.specs.Scan.{blank_answer, outcome, refusal, standard};
ghost use Rattle.sink.specs.Stored.{no_counts};
ghost use Rattle.driver.specs.Held.{Modest};
ghost use Rattle.scanner.specs.Promise.{Answers, Settles, answer_of, capped, lent_of};
ghost use Rattle.scanner.specs.Run.{RunComes};

use crate::run::run;
use driver::{outside, standard};
use events::Counts;
use records::RECORD_WORDS;
use rooms::clear_from;
use sink::settle;
use validity::check_text;
use yaml_scan::Limits;
use yaml_text::Refusal;

// T, the tokens, and D, the bytes of their texts.
#[derive(Clone, Copy)]
pub struct Sizes {
    pub tokens: u32,
    pub bytes: u32,
}

// A refusal says T and D too: 4 and 5 tell what room the text needs, and with every other refusal both are 0.
#[derive(Clone, Copy)]
pub struct Refused {
    pub refusal: Refusal,
    pub sizes: Sizes,
}

const NONE: Sizes = Sizes {
    tokens: 0,
    bytes: 0,
};

// 1; then 2 or 3; then the run.
#[tactic(auto, using(crate::proofs::Filled::before_run))]
fn outcome(
    limits: Limits,
    text: &[u8],
    words: &mut [u32],
    bytes: &mut [u8],
) -> Result<Counts, Refusal>
    requires { Modest limits }
    ensures { RunComes (outcome limits text.now) no_counts words.old bytes.old words.new bytes.new result }
{
    if limits.bytes < text.len() {
        return Err(outside(1));
    }
    check_text(text)?;
    run(limits, text, words, bytes)
}

// A refusal leaves both rooms all zero.
fn clears(f: Refusal, sizes: Sizes, words: &mut [u32], bytes: &mut [u8]) -> Result<Sizes, Refused>
    ensures { answer_of result words.new bytes.new ≡ blank_answer (refusal f.number f.mark sizes.tokens sizes.bytes) (length words.old) (length bytes.old) }
{
    words.fill(0);
    bytes.fill(0);
    Err(Refused { refusal: f, sizes })
}

// 4: T exceeds the whole records that fit; 5: D exceeds the bytes.
#[tactic(auto, using(crate::proofs::Filled::by_room))]
fn lent(n: Counts, words: &mut [u32], bytes: &mut [u8]) -> Result<Sizes, Refused>
    requires { Settles n words.old }
    ensures { answer_of result words.new bytes.new ≡ lent_of n words.old bytes.old }
{
    let sizes = Sizes {
        tokens: n.count + n.put_in,
        bytes: n.used,
    };
    let t = sizes.tokens as usize;
    let d = sizes.bytes as usize;
    if words.len() / RECORD_WORDS < t {
        return clears(outside(4), sizes, words, bytes);
    }
    if bytes.len() < d {
        return clears(outside(5), sizes, words, bytes);
    }
    settle(words, n.count, sizes.tokens);
    clear_from(words, t * RECORD_WORDS);
    clear_from(bytes, d);
    Ok(sizes)
}

// Within limits that are at most 01's.
#[tactic(auto, using(crate::proofs::Filled::by_outcome))]
fn scan_within(
    limits: Limits,
    text: &[u8],
    words: &mut [u32],
    bytes: &mut [u8],
) -> Result<Sizes, Refused>
    requires { Modest limits }
    ensures { Answers limits text.now words.old bytes.old words.new bytes.new result }
{
    match outcome(limits, text, words, bytes) {
        Ok(n) => lent(n, words, bytes),
        Err(f) => clears(f, NONE, words, bytes),
    }
}

// A limit above 01's counts as 01's.
fn capped(limits: Limits) -> Limits
    ensures { result ≡ capped limits }
{
    let most = standard();
    Limits {
        bytes: limits.bytes.min(most.bytes),
        levels: limits.levels.min(most.levels),
        entries: limits.entries.min(most.entries),
    }
}

// Tokens and decoded text of a text, in lent words and bytes, within these limits and 01's.
#[tactic(auto, using(crate::specs::Promise::capped_modest))]
pub fn scan_with(
    limits: Limits,
    text: &[u8],
    words: &mut [u32],
    bytes: &mut [u8],
) -> Result<Sizes, Refused>
    ensures { Answers (capped limits) text.now words.old bytes.old words.new bytes.new result }
{
    scan_within(capped(limits), text, words, bytes)
}

// The same within 01's limits.
#[tactic(auto, using(crate::specs::Promise::standard_modest))]
pub fn scan(text: &[u8], words: &mut [u32], bytes: &mut [u8]) -> Result<Sizes, Refused>
    ensures { Answers standard text.now words.old bytes.old words.new bytes.new result }
{
    scan_within(standard(), text, words, bytes)
}
