// K4: '-' and '?'. K5: ':'.
#![tactic(auto)]

ghost use Rattle.std.specs.Prelude.{◌≡◌, ◌≤◌};
ghost use Rattle.yaml_scan.specs.declared.Candidate.TheVariants as candidate;
ghost use Rattle.yaml_scan.specs.Value.{fetch_block_entry, fetch_key, fetch_value, value_with, value_without};
ghost use Rattle.chars.specs.View.{Small};
ghost use Rattle.stacks.specs.Frame.{SetsLevel, key_of, level_of};
ghost use Rattle.events.specs.declared.Counts as counts;
ghost use Rattle.states.specs.State.{key_mark, state_of};
ghost use Rattle.states.specs.Brief.{brief_fetched};
ghost use Rattle.states.specs.Fetch.{FetchesQuiet, OneByte, Ready};
ghost use Rattle.indicators.specs.Indicator.{Rollable, RollsAt, SeesColon, goes_one, lexeme_one, note_by, start_by};
ghost use Rattle.indicators.specs.Words.{colon_words, dash_words, question_words, questioned_of, with_words, without_words};

use chars::mark::Place;
use chars::refuse::refuse;
use events::{Event, Note, Opening, opening_if};
use reading::Lexeme;
use stacks::STACK_WORDS;
use stacks::frame::{clear_key, key, level_data, set_level};
use stacks::indent::{Rolled, roll};
use states::{Brief, Fetched, State};
use yaml_lexeme::Kind;
use yaml_scan::{Candidate, Limits};
use yaml_text::{Mark, Refusal};

// K4: rolling to the column of a mark, only at level 0. 48 is here.
fn roll_at(
    limits: Limits,
    m: Mark,
    s: State,
    stacks: &mut [u32; STACK_WORDS],
) -> Result<Rolled, Refusal>
    requires { Rollable limits stacks.old m s }
    ensures { RollsAt limits stacks.old stacks.new m s result }
{
    let i = s.indents;
    let here = s.place.mark;
    if 0 < s.flow_level {
        return Ok(Rolled {
            starts: false,
            indents: i,
        });
    }
    roll(stacks, limits.entries, here, m.col + 1, i)
}

// The one character at p; the place behind it is counted as p is.
fn one_character(p: Place, kind: Kind) -> Lexeme
    requires { Small p }
    ensures { result ≡ lexeme_one kind p }
{
    let start = p.mark;
    let q = p.skip_blank();
    let end = q.mark;
    Lexeme::new(kind, start, end, q)
}

// On from behind it.
fn emit_indicator(s: State, note: Note, opening: Opening, kind: Kind, allowed: bool) -> Fetched
    requires { Small s.place }
    ensures { result ≡ goes_one s note opening kind allowed }
{
    let l = one_character(s.place, kind);
    let t = l.token;
    let e = Event {
        note: note,
        closed: 0,
        opening: opening,
        token: t,
    };
    Fetched::Goes(e, s.moved(l.next, false, allowed))
}

// '-'. 46: in flow, or no simple key is allowed.
pub fn fetch_block_entry(
    limits: Limits,
    text: &[u8],
    s: State,
    stacks: &mut [u32; STACK_WORDS],
) -> Result<Brief, Refusal>
    requires { Ready limits text.now stacks.old s × OneByte text.now s.place }
    ensures { (n : counts.Counts) → FetchesQuiet limits text.now stacks.old stacks.new (dash_words limits stacks.old s) n s (fetch_block_entry limits (state_of text.now stacks.old n.count s)) (brief_fetched result) }
{
    if (0 < s.flow_level) | !s.simple_key_allowed {
        return refuse(46, s.place.mark);
    }
    let r = roll_at(limits, s.place.mark, s, stacks)?;
    s.remove_key(stacks);
    let l = one_character(s.place, Kind::BlockEntry);
    let t = l.token;
    Ok(Brief::Enters {
        state: s.with_indents(r.indents).moved(l.next, false, true),
        starts: r.starts,
        token: t,
    })
}

// '?' came in this entry.
fn question_seen(stacks: &mut [u32; STACK_WORDS], level: usize)
    requires { level ≤ 255 }
    ensures { SetsLevel stacks.old stacks.new level (questioned_of (level_of stacks.old level)) }
{
    let mut l = level_data(stacks, level);
    l.question = true;
    set_level(stacks, level, l)
}

// '?'. 46: at level 0 no simple key is allowed.
pub fn fetch_key(
    limits: Limits,
    text: &[u8],
    s: State,
    stacks: &mut [u32; STACK_WORDS],
) -> Result<Fetched, Refusal>
    requires { Ready limits text.now stacks.old s × OneByte text.now s.place }
    ensures { (n : counts.Counts) → FetchesQuiet limits text.now stacks.old stacks.new (question_words limits stacks.old s) n s (fetch_key limits (state_of text.now stacks.old n.count s)) result }
{
    if (s.flow_level == 0) & !s.simple_key_allowed {
        return refuse(46, s.place.mark);
    }
    let r = roll_at(limits, s.place.mark, s, stacks)?;
    s.remove_key(stacks);
    question_seen(stacks, s.flow_level);
    let start = opening_if(r.starts, Opening::BlockMappingStart);
    Ok(emit_indicator(
        s.with_indents(r.indents),
        Note::Nothing,
        start,
        Kind::Key,
        s.flow_level == 0,
    ))
}

// ':' came in this entry. Whether it begins a pair: the first of a sequence's entry, if no '?' came before it.
fn colon_seen(stacks: &mut [u32; STACK_WORDS], level: usize) -> bool
    requires { level ≤ 255 }
    ensures { SeesColon stacks.old stacks.new level result }
{
    let mut l = level_data(stacks, level);
    let pair = (0 < level) & l.sequence & !l.colon & !l.question;
    l.colon = true;
    l.implicit = l.implicit | pair;
    set_level(stacks, level, l);
    pair
}

// With a candidate, an empty Key goes in before it.
#[tactic(auto, unfolding(crate::specs::Indicator::note_by))]
fn note_of(n: u32, pair: bool, starts: bool) -> Note
    ensures { result ≡ note_by n pair starts }
{
    if pair {
        return Note::Pair(n);
    }
    if starts {
        return Note::Block(n);
    }
    Note::Key(n)
}

// Without, a start token may come first.
#[tactic(auto, unfolding(crate::specs::Indicator::start_by))]
fn opening_of(pair: bool, starts: bool) -> Opening
    ensures { result ≡ start_by pair starts }
{
    if pair {
        return Opening::FlowMappingStart;
    }
    opening_if(starts, Opening::BlockMappingStart)
}

// With the candidate, which is the token of that number and stands at that mark: it is used up.
fn value_with(
    limits: Limits,
    text: &[u8],
    number: u32,
    m: Mark,
    s: State,
    stacks: &mut [u32; STACK_WORDS],
) -> Result<Fetched, Refusal>
    requires { Ready limits text.now stacks.old s × OneByte text.now s.place × (key_mark (key_of stacks.old s.flow_level) ≡ m) }
    ensures { (n : counts.Counts) → FetchesQuiet limits text.now stacks.old stacks.new (with_words limits stacks.old m s) n s (value_with limits number m (state_of text.now stacks.old n.count s)) result }
{
    let r = roll_at(limits, m, s, stacks)?;
    clear_key(stacks, s.flow_level);
    let pair = colon_seen(stacks, s.flow_level);
    let note = note_of(number, pair, r.starts);
    Ok(emit_indicator(
        s.with_indents(r.indents),
        note,
        Opening::Nothing,
        Kind::Value,
        false,
    ))
}

// Without one. 46: at level 0 a simple key must be allowed.
fn value_without(
    limits: Limits,
    text: &[u8],
    s: State,
    stacks: &mut [u32; STACK_WORDS],
) -> Result<Fetched, Refusal>
    requires { Ready limits text.now stacks.old s × OneByte text.now s.place × (key_of stacks.old s.flow_level ≡ candidate.Absent) }
    ensures { (n : counts.Counts) → FetchesQuiet limits text.now stacks.old stacks.new (without_words limits stacks.old s) n s (value_without limits (state_of text.now stacks.old n.count s)) result }
{
    if (s.flow_level == 0) & !s.simple_key_allowed {
        return refuse(46, s.place.mark);
    }
    let r = roll_at(limits, s.place.mark, s, stacks)?;
    let start = opening_of(colon_seen(stacks, s.flow_level), r.starts);
    Ok(emit_indicator(
        s.with_indents(r.indents),
        Note::Nothing,
        start,
        Kind::Value,
        s.flow_level == 0,
    ))
}

// ':'.
pub fn fetch_value(
    limits: Limits,
    text: &[u8],
    s: State,
    stacks: &mut [u32; STACK_WORDS],
) -> Result<Fetched, Refusal>
    requires { Ready limits text.now stacks.old s × OneByte text.now s.place }
    ensures { (n : counts.Counts) → FetchesQuiet limits text.now stacks.old stacks.new (colon_words limits stacks.old s) n s (fetch_value limits (state_of text.now stacks.old n.count s)) result }
{
    let k = key(stacks, s.flow_level);
    match k {
        Candidate::Absent => value_without(limits, text, s, stacks),
        Candidate::Possible {
            required: _,
            token_number: n,
            mark: m,
        } => value_with(limits, text, n, m, s, stacks),
    }
}
