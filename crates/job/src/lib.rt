// The job reader: seeds of a job sheet, one at a time, and at the end whether the job is done.
#![tactic(auto)]

mod own;

ghost use Rattle.std.specs.Prelude.{◌≡◌, length};
ghost use Rattle.yaml_lexeme.specs.Record.{mark_in};
ghost use Rattle.yaml_scan.specs.Scan.{standard};
ghost use Rattle.yaml_job.specs.Job.{effect, most_asked};
ghost use Rattle.driver.specs.Held.{held_words};
ghost use Rattle.job.specs.declared.Reader.TheVariants.{Reading};
ghost use Rattle.job.specs.Asks.{AskPromises, AsksPromise, ends, from_answer, from_effect, hands, lost, next_count};
ghost use Rattle.job.specs.JobHolds.{JobPromises};
ghost use Rattle.job.specs.Own.{reader_in};
ghost use Rattle.job.specs.Sees.{seen};

use crate::own::{OWN_WORDS, reader_in, reader_words};
use driver::held::HELD_WORDS;
use records::RECORD_WORDS;
use shape::effect;
use stream::{Next, next_token};
use yaml_job::{Closing, Effect, JobAnswer, Met, ShapePlace};
use yaml_text::{Mark, Refusal};

// Words that are kept from call to call: the stream's, then the reader's own.
pub const JOB_WORDS: usize = HELD_WORDS + OWN_WORDS;

// Where a reader stands: the place in the shape, the fields met, and how many seeds were handed over.
#[derive(Clone, Copy)]
pub struct Standing {
    pub place: ShapePlace,
    pub met: Met,
    pub count: u32,
}

// What the reader knows between two calls, besides the stream.
#[derive(Clone, Copy)]
pub enum Reader {
    Reading(Standing),
    Ended(Closing),
}

// What a call answers, and what the reader knows then.
#[derive(Clone, Copy)]
struct Replied {
    answer: JobAnswer,
    reader: Reader,
}

// What one token more comes to. (No Result: neither is a failure.)
#[derive(Clone, Copy)]
enum Asked {
    Goes { place: ShapePlace, met: Met },
    Replies(Replied),
}

// So many tokens are asked for in a call at most.
const MOST_ASKED: u32 = 24;

fn closes(c: Closing) -> Asked
    ensures { result ≡ ends c }
{
    Asked::Replies(Replied {
        answer: JobAnswer::Closed(c),
        reader: Reader::Ended(c),
    })
}

// n seeds were handed over before it.
fn hands(value: u32, place: ShapePlace, met: Met, n: u32) -> Asked
    ensures { result ≡ hands value place met (next_count n) }
{
    let count = n.saturating_add(1);
    Asked::Replies(Replied {
        answer: JobAnswer::Seed { value, count },
        reader: Reader::Reading(Standing { place, met, count }),
    })
}

fn lost(s: Standing) -> Replied
    ensures { result ≡ lost s.place s.met s.count }
{
    Replied {
        answer: JobAnswer::Lost,
        reader: Reader::Reading(s),
    }
}

fn by_effect(e: Effect, mark: Mark, count: u32) -> Asked
    ensures { result ≡ from_effect e mark count }
{
    match e {
        Effect::Passes { place, met } => Asked::Goes { place, met },
        Effect::Hands { seed, place, met } => hands(seed, place, met, count),
        Effect::Refuses(number) => closes(Closing::NotDone {
            number,
            mark,
            count,
        }),
        Effect::Finishes => closes(Closing::Done { count }),
    }
}

// What a token does, whose text stands in the bytes.
fn effect_of(token: [u32; RECORD_WORDS], bytes: &[u8], place: ShapePlace, met: Met) -> Effect
    ensures { result ≡ effect place met (seen token bytes.now) }
{
    let from = (token[7] as usize).min(bytes.len());
    let to = from + (token[8] as usize).min(bytes.len() - from);
    effect(place, met, token[0], token[11], &bytes[from..to])
}

fn start_of(token: [u32; RECORD_WORDS]) -> Mark
    ensures { result ≡ mark_in token 1 }
{
    Mark {
        index: token[1],
        line: token[2],
        col: token[3],
    }
}

// What an answer of the stream comes to; where it is a token, this is its record.
fn by_answer(
    a: Result<Next, Refusal>,
    token: [u32; RECORD_WORDS],
    bytes: &[u8],
    s: Standing,
) -> Asked
    ensures { result ≡ from_answer a token bytes.now s.place s.met s.count }
{
    let count = s.count;
    match a {
        Ok(Next::Token) => {
            let e = effect_of(token, bytes, s.place, s.met);
            by_effect(e, start_of(token), count)
        }
        Ok(Next::Ended) => Asked::Replies(lost(s)),
        Err(f) => closes(Closing::NotDone {
            number: f.number,
            mark: f.mark,
            count,
        }),
    }
}

// Asks for one token. What is held, the text and the rooms stay apart, since C lends them so.
fn ask(
    held: &mut [u32; HELD_WORDS],
    text: &[u8],
    words: &mut [u32],
    bytes: &mut [u8],
    s: Standing,
) -> Asked
    ensures { AskPromises standard text.now held.old words.old bytes.old held.new words.new bytes.new s.place s.met s.count result }
{
    let mut token = [0u32; RECORD_WORDS];
    let a = next_token(held, text, words, bytes, &mut token);
    by_answer(a, token, bytes, s)
}

// Asks for tokens until a seed is handed over or the job closes.
fn asks(
    held: &mut [u32; HELD_WORDS],
    text: &[u8],
    words: &mut [u32],
    bytes: &mut [u8],
    s: Standing,
) -> Replied
    ensures promise { AsksPromise standard text.now most_asked held.old words.old bytes.old held.new words.new bytes.new s.place s.met s.count result }
    ensures same_length { length held.new ≡ held_words }
{
    let mut at = s;
    for _ in 0..MOST_ASKED {
        match ask(held, text, words, bytes, at) {
            Asked::Goes { place, met } => {
                at = Standing {
                    place,
                    met,
                    count: s.count,
                };
            }
            Asked::Replies(r) => return r,
        }
    }
    lost(at)
}

// Where no closing record was given yet.
fn read_on(
    state: &mut [u32; JOB_WORDS],
    text: &[u8],
    words: &mut [u32],
    bytes: &mut [u8],
    s: Standing,
) -> JobAnswer
    requires { reader_in state.old ≡ Reading s }
    ensures { JobPromises standard text.now state.old words.old bytes.old state.new words.new bytes.new result }
{
    let (held, own) = state.split_first_chunk_mut::<HELD_WORDS>().unwrap();
    let r = asks(held, text, words, bytes, s);
    own.copy_from_slice(&reader_words(r.reader));
    r.answer
}

// The next seed of a job sheet, or the closing record. The state is all zero at first; state, text, words and bytes are those of the call before.
pub fn next_seed(
    state: &mut [u32; JOB_WORDS],
    text: &[u8],
    words: &mut [u32],
    bytes: &mut [u8],
) -> JobAnswer
    ensures { JobPromises standard text.now state.old words.old bytes.old state.new words.new bytes.new result }
{
    match reader_in(state) {
        Reader::Ended(c) => JobAnswer::Closed(c),
        Reader::Reading(s) => read_on(state, text, words, bytes, s),
    }
}
