// Steps, one after the other: the loop of the one call, and of tokens that are given one at a time.
#![tactic(auto)]

pub mod held;

ghost use Rattle.std.specs.Prelude.{◌+◌, ◌-◌, ◌^◌, ◌<◌, ◌≤◌, suc, false, true, ◌≡◌, length};
ghost use Rattle.yaml_text.specs.Mark.{origin};
ghost use Rattle.yaml_scan.specs.Choice.{choice};
ghost use Rattle.yaml_scan.specs.Scan.{standard, step};
ghost use Rattle.yaml_stream.specs.Levels.{level_key};
ghost use Rattle.yaml_stream.specs.Lowest.{names};
ghost use Rattle.choices.specs.Choice.{AsDefined};
ghost use Rattle.stacks.specs.Frame.{frame_keys};
ghost use Rattle.states.specs.State.{state_of};
ghost use Rattle.sink.specs.Stored.{counts_ending};
ghost use Rattle.steps.specs.Step.{is_brief};
ghost use Rattle.storing.specs.Step.{StepGiven, step_left, token_left};
ghost use Rattle.driver.specs.Behind.{halt_of};
ghost use Rattle.stream_laws.specs.Driven.{crowded, if_enough, one_by_one, test_of, then_pending};
ghost use Rattle.driver.specs.Drives.{Drives};
ghost use Rattle.driver.specs.Held.{Modest, pending_held, put_counts, put_pending, put_state, put_until};
ghost use Rattle.driver.specs.Step.{StepDone, token_news};

use crate::held::{
    BASE, HELD_WORDS, LEVEL, UNTIL, load_counts, load_state, store_counts, store_state,
};
use chars::mark::origin;
use chars::refuse::refuse;
use choices::advance::to_next_token;
use choices::choice::choice;
use events::{Counts, Opening, brief_event};
use rooms::as_word;
use sink::{BlockStart, PairEnd, put_brief, put_news};
use stacks::STACK_WORDS;
use stacks::frame::key;
use states::{Brief, Fetched, State};
use steps::{fetch_brief, fetch_other, is_brief};
use stream_laws::Pending;
use yaml_scan::{Candidate, Choice, Limits};
use yaml_text::{Mark, Refusal};

// What steps come to.
#[derive(Clone, Copy)]
pub enum Outcome {
    // StreamEnd was scanned.
    Scanned(Counts),
    // Enough tokens can be given; the state is held.
    Ready,
}

// Behind a step: the state there; the end of the text; or a refusal. No Result: its answers would be put together in memory on the way to the loop, and each
// token waited for the one before.
#[derive(Clone, Copy)]
enum Stepped {
    On { state: State, counts: Counts },
    Ends(Counts),
    Refused(Refusal),
}

// Behind a step: on, or enough can be given; and what is pending then.
#[derive(Clone, Copy)]
enum Behind {
    On(Pending),
    Ready(Pending),
}

// So many tokens may wait before a step.
const MOST_WAITING: u32 = 4_096;

// So many slots with tokens that can be given are enough: the state is read and held once for all of them.
const SLOTS_AHEAD: u32 = 32;

// 01's limits.
pub fn standard() -> Limits
    ensures { result ≡ standard }
{
    Limits {
        bytes: 1_048_576,
        levels: 255,
        entries: 255,
    }
}

// A refusal that has no place in the text.
pub fn outside(number: u32) -> Refusal
    ensures { result ≡ record { number = number; mark = origin } }
{
    Refusal {
        number,
        mark: origin(),
    }
}

// The counts behind so many ends of blocks.
fn ending(n: Counts, ended: u32) -> Counts
    requires { n.count + ended < 2 ^ 32 }
    ensures { result ≡ counts_ending n ended }
{
    Counts {
        count: n.count + ended,
        put_in: n.put_in,
        used: n.used,
    }
}

// One token that is brief, before which so many blocks ended.
// No struct holds what is lent: the fetchers take stacks and bytes, what stores takes the words, and each call would take it apart.
fn brief_token(
    limits: Limits,
    text: &[u8],
    c: Choice,
    s: State,
    ended: u32,
    n: Counts,
    base: u32,
    stacks: &mut [u32; STACK_WORDS],
    words: &mut [u32],
    bytes: &mut [u8],
) -> Stepped
    requires { StepGiven limits text.now stacks.old s n × (base ≤ n.count) × (ended ≤ 255) × AsDefined text.now s (λ t. choice t) c × (is_brief c ≡ true) }
    ensures { StepDone limits text.now stacks.new (token_news limits text.now stacks.old s ended n) base n words.old bytes.old (token_left (state_of text.now stacks.old (n.count + ended) s) bytes.old n.used) words.new bytes.new result }
{
    let k = ending(n, ended);
    let r = match fetch_brief(limits, text, c, s, k, stacks, bytes) {
        Ok(r) => r,
        Err(f) => {
            return Stepped::Refused(f);
        }
    };
    match r {
        Brief::Goes { state, pair, token } => {
            put_brief::<PairEnd>(words, n.count - base, s.place.mark, ended, pair, token);
            Stepped::On {
                state: state.anew(),
                counts: k.counting(brief_event(pair, Opening::FlowMappingEnd, token)),
            }
        }
        Brief::Enters {
            state,
            starts,
            token,
        } => {
            put_brief::<BlockStart>(words, n.count - base, s.place.mark, ended, starts, token);
            Stepped::On {
                state: state.anew(),
                counts: k.counting(brief_event(starts, Opening::BlockSequenceStart, token)),
            }
        }
    }
}

// One token that is not.
fn other_token(
    limits: Limits,
    text: &[u8],
    c: Choice,
    s: State,
    ended: u32,
    n: Counts,
    base: u32,
    stacks: &mut [u32; STACK_WORDS],
    words: &mut [u32],
    bytes: &mut [u8],
) -> Stepped
    requires { StepGiven limits text.now stacks.old s n × (base ≤ n.count) × (ended ≤ 255) × AsDefined text.now s (λ t. choice t) c × (is_brief c ≡ false) }
    ensures { StepDone limits text.now stacks.new (token_news limits text.now stacks.old s ended n) base n words.old bytes.old (token_left (state_of text.now stacks.old (n.count + ended) s) bytes.old n.used) words.new bytes.new result }
{
    let k = ending(n, ended);
    let r = match fetch_other(limits, text, c, s, k, stacks, bytes) {
        Ok(r) => r,
        Err(f) => {
            return Stepped::Refused(f);
        }
    };
    let e = match r {
        Fetched::Goes(e, _) => e,
        Fetched::Ends(e) => e,
    };
    put_news(words, base, n.count - base, s.place.mark, ended, e);
    let counts = k.counting(e);
    match r {
        Fetched::Goes(_, state) => Stepped::On { state, counts },
        Fetched::Ends(_) => Stepped::Ends(counts),
    }
}

// The same answer, put together anew: else the call writes it to the caller's own, and brief tokens go through memory too.
fn apart(r: Stepped) -> Stepped
    ensures { result ≡ r }
{
    match r {
        Stepped::On { state, counts } => Stepped::On {
            state: state.anew(),
            counts,
        },
        Stepped::Ends(n) => Stepped::Ends(n),
        Stepped::Refused(f) => Stepped::Refused(f),
    }
}

// One token from the state s, before which so many blocks ended.
fn token(
    limits: Limits,
    text: &[u8],
    s: State,
    ended: u32,
    n: Counts,
    base: u32,
    stacks: &mut [u32; STACK_WORDS],
    words: &mut [u32],
    bytes: &mut [u8],
) -> Stepped
    requires { StepGiven limits text.now stacks.old s n × (base ≤ n.count) × (ended ≤ 255) }
    ensures { StepDone limits text.now stacks.new (token_news limits text.now stacks.old s ended n) base n words.old bytes.old (token_left (state_of text.now stacks.old (n.count + ended) s) bytes.old n.used) words.new bytes.new result }
{
    let c = choice(text, s);
    if is_brief(c) {
        return brief_token(
            limits,
            text,
            c,
            s.anew(),
            ended,
            n,
            base,
            stacks,
            words,
            bytes,
        );
    }
    apart(other_token(limits, text, c, s, ended, n, base, stacks, words, bytes))
}

// The step from the state s.
fn one_step(
    limits: Limits,
    text: &[u8],
    s: State,
    n: Counts,
    base: u32,
    stacks: &mut [u32; STACK_WORDS],
    words: &mut [u32],
    bytes: &mut [u8],
) -> Stepped
    requires { StepGiven limits text.now stacks.old s n × (base ≤ n.count) }
    ensures { StepDone limits text.now stacks.new (step limits (state_of text.now stacks.old n.count s)) base n words.old bytes.old (step_left (state_of text.now stacks.old n.count s) bytes.old n.used) words.new bytes.new result }
{
    match to_next_token(limits, text, s, stacks) {
        Ok(a) => token(
            limits, text, a.state, a.ended, n, base, stacks, words, bytes,
        ),
        Err(f) => Stepped::Refused(f),
    }
}

// Whether the candidate of a level is the token of that number; a level above the flow level has none.
#[tactic(auto, using(crate::proofs::Halts::named_level))]
fn is_named(stacks: &[u32; STACK_WORDS], flow: usize, level: usize, number: u32) -> bool
    requires { level ≤ 255 }
    ensures { result ≡ names number (level_key level (frame_keys stacks.now (suc flow))) }
{
    if flow < level {
        return false;
    }
    match key(stacks, level) {
        Candidate::Possible { token_number, .. } => number == token_number,
        Candidate::Absent => false,
    }
}

// 51, where too many wait, or on.
#[tactic(auto, unfolding(stream_laws::specs::Driven::crowded))]
fn too_many(w: Pending, k: Counts, here: Mark) -> Result<Behind, Refusal>
    requires { (w.number ≤ k.count) × (w.put_in ≤ k.put_in) × (k.count + k.put_in < 2 ^ 32) }
    ensures { halt_of result ≡ crowded w k here }
{
    if MOST_WAITING < k.count - w.number + (k.put_in - w.put_in) {
        return refuse(51, here);
    }
    Ok(Behind::On(w))
}

// What is pending where all tokens but the last can be given, behind a step from that level.
#[tactic(auto, unfolding(stream_laws::specs::Driven::then_pending))]
fn then_pending(stacks: &[u32; STACK_WORDS], level: usize, flow: usize, k: Counts) -> Pending
    requires { (level ≤ 255) × (0 < k.count) }
    ensures { result ≡ then_pending level (frame_keys stacks.now (suc flow)) flow k }
{
    if is_named(stacks, flow, level, k.count - 1) {
        return Pending {
            number: k.count - 1,
            level: level,
            put_in: k.put_in,
        };
    }
    Pending {
        number: k.count,
        level: flow,
        put_in: k.put_in,
    }
}

// Enough can be given, or on.
#[tactic(auto, unfolding(stream_laws::specs::Driven::if_enough))]
fn if_enough(base: u32, w: Pending) -> Behind
    requires { base ≤ w.number }
    ensures { halt_of (Ok result) ≡ if_enough base w }
{
    if w.number - base < SLOTS_AHEAD {
        return Behind::On(w);
    }
    Behind::Ready(w)
}

// Where tokens are given one at a time, behind a step from that level to the state t, with the counts k: 5; 51; whether enough can be given.
#[tactic(auto, unfolding(stream_laws::specs::Driven::one_by_one))]
fn behind_one(
    room: usize,
    base: u32,
    w: Pending,
    level: usize,
    t: State,
    k: Counts,
    stacks: &[u32; STACK_WORDS],
) -> Result<Behind, Refusal>
    requires { (w.level ≤ 255) × (level ≤ 255) × (base < k.count) × (w.number ≤ k.count) × (w.put_in ≤ k.put_in) × (k.count + k.put_in < 2 ^ 32) }
    ensures { halt_of result ≡ one_by_one room base w level (frame_keys stacks.now (suc t.flow_level)) t.flow_level t.place.mark k }
{
    if room < k.used as usize {
        return Err(outside(5));
    }
    if is_named(stacks, t.flow_level, w.level, w.number) {
        return too_many(w, k, t.place.mark);
    }
    Ok(if_enough(base, then_pending(stacks, level, t.flow_level, k)))
}

// Behind a step. In the one call nothing is asked.
fn behind_step(
    single: bool,
    room: usize,
    base: u32,
    w: Pending,
    level: usize,
    t: State,
    k: Counts,
    stacks: &[u32; STACK_WORDS],
) -> Result<Behind, Refusal>
    requires { (w.level ≤ 255) × (level ≤ 255) × (base < k.count) × (w.number ≤ k.count) × (w.put_in ≤ k.put_in) × (k.count + k.put_in < 2 ^ 32) }
    ensures { halt_of result ≡ test_of single room base w level (frame_keys stacks.now (suc t.flow_level)) t.flow_level t.place.mark k }
{
    if single {
        return behind_one(room, base, w, level, t, k, stacks);
    }
    Ok(Behind::On(w))
}

// Tokens can be given up to the one that is pending.
fn hold_until(held: &mut [u32; HELD_WORDS], base: u32, w: Pending)
    requires { base ≤ w.number }
    ensures { held.new ≡ put_until held.old base w }
{
    held[UNTIL] = w.number - base;
}

// The state is held, with what is pending.
fn hold(held: &mut [u32; HELD_WORDS], t: State, k: Counts, base: u32, w: Pending)
    requires { (t.place.at < 2 ^ 32) × (t.indents.depth < 2 ^ 32) × (t.flow_level < 2 ^ 32) × (w.level < 2 ^ 32) × (base ≤ w.number) }
    ensures { held.new ≡ put_pending (put_counts (put_state held.old t) k) base w }
{
    store_state(held, t);
    store_counts(held, k);
    held[LEVEL] = as_word(w.level);
    hold_until(held, base, w);
}

// What is pending, as it is held: the token in slot 0.
fn load_pending(held: &[u32; HELD_WORDS], base: u32, n: Counts) -> Pending
    ensures { result ≡ pending_held held.now base n }
{
    Pending {
        number: base,
        level: held[LEVEL].min(255) as usize,
        put_in: n.put_in,
    }
}

// All steps from the state that is held; where tokens are given one at a time, up to the first behind which enough can be given.
// `single` is a flag: a closure in its place would make a loop for each caller (docs/DESIGN.md), and would be handed all that behind_step is.
pub fn all_steps(
    limits: Limits,
    text: &[u8],
    single: bool,
    held: &mut [u32; HELD_WORDS],
    words: &mut [u32],
    bytes: &mut [u8],
) -> Result<Outcome, Refusal>
    requires { Modest limits × (length text.now ≤ 1_048_576) }
    ensures { Drives limits single text.now held.old words.old bytes.old held.new words.new bytes.new result }
{
    let mut t = load_state(limits, held, text);
    let mut k = load_counts(held, text);
    let base = held[BASE].min(k.count);
    let mut w = load_pending(held, base, k);
    loop {
        let level = t.flow_level;
        let stacks = held.first_chunk_mut::<STACK_WORDS>().unwrap();
        let r = one_step(limits, text, t, k, base, stacks, words, bytes);
        match r {
            Stepped::On { state, counts } => {
                t = state.anew();
                k = counts;
            }
            Stepped::Ends(m) => {
                return Ok(Outcome::Scanned(m));
            }
            Stepped::Refused(f) => {
                hold_until(held, base, w);
                return Err(f);
            }
        }
        let stacks = held.first_chunk::<STACK_WORDS>().unwrap();
        let b = behind_step(single, bytes.len(), base, w, level, t, k, stacks);
        match b {
            Ok(Behind::On(v)) => {
                w = v;
            }
            Ok(Behind::Ready(v)) => {
                hold(held, t, k, base, v);
                return Ok(Outcome::Ready);
            }
            Err(f) => {
                hold_until(held, base, w);
                return Err(f);
            }
        }
    }
}
