// K6: brackets and ','.
#![tactic(auto)]

ghost use Rattle.std.specs.Prelude.{◌<◌, ◌^◌, ◌≤◌, ◌≡◌, length};
ghost use Rattle.yaml_lexeme.specs.Gap.{blanks_and_comment};
ghost use Rattle.yaml_scan.specs.Bracket.{fetch_flow_collection_end, fetch_flow_collection_start, fetch_flow_entry, new_level};
ghost use Rattle.chars.specs.View.{Stands, view};
ghost use Rattle.reading.specs.Reading.{ReachesAs};
ghost use Rattle.events.specs.declared.Counts as counts;
ghost use Rattle.states.specs.Brief.{brief_fetched};
ghost use Rattle.states.specs.Fetch.{FetchesQuiet, OneByte, Ready};
ghost use Rattle.states.specs.State.{state_of};
ghost use Rattle.brackets.specs.Emit.{goes_past, s_past};
ghost use Rattle.brackets.specs.Words.{EntryFits, OpensLevel, StacksBracket, bracket_words, comma_words, stacks_entry};

use chars::class::is_blank;
use chars::mark::Place;
use chars::pick::pick;
use chars::refuse::refuse;
use events::Counts;
use gaps::blanks_and_comment;
use stacks::STACK_WORDS;
use stacks::frame::{clear_key, level_data, set_level};
use stacks::indent::{Indents, full, push, top_ends};
use states::{Brief, State};
use utf8::byte;
use yaml_lexeme::{Kind, Token};
use yaml_scan::{Level, Limits};
use yaml_text::{Mark, Refusal};

// A fresh entry of a level.
fn new_level(sequence: bool) -> Level
    ensures { result ≡ new_level sequence }
{
    Level {
        sequence: sequence,
        colon: false,
        question: false,
        implicit: false,
    }
}

// The state behind a bracket or ','. Behind one that closes no simple key is allowed, and ':' may stand directly.
fn past_bracket(s: State, p: Place, closes: bool) -> State
    requires { p.mark.index < 2 ^ 31 }
    ensures { result ≡ s_past s p closes }
{
    let t = s.moved(p, false, !closes);
    if closes {
        return t.adjacent_here();
    }
    t
}

// The blanks and comment here; at once where neither begins.
fn rest_of_line(text: &[u8], start: Place) -> Result<Place, Refusal>
    requires { Stands text.now start }
    ensures { ReachesAs text.now start result (blanks_and_comment (view text.now start)) }
{
    let from = start.at;
    let c = byte(text, from);
    if is_blank(c as u32) | (c == b'#') {
        return blanks_and_comment(text, start);
    }
    Ok(start)
}

// Behind a bracket or ',' with its blanks and comment: the state, and the token.
fn past(s: State, pair: bool, kind: Kind, next: Place, closes: bool) -> Brief
    requires { next.mark.index < 2 ^ 31 }
    ensures { result ≡ goes_past s pair kind next closes }
{
    let start = s.place.mark;
    let m = next.mark;
    // Not copied: a copy loads at once what was stored in parts, and waits for them.
    let end = Mark {
        index: m.index,
        line: m.line,
        col: m.col,
    };
    let t = Token {
        kind: kind,
        start: start,
        end: end,
    };
    Brief::Goes {
        state: past_bracket(s, next, closes),
        pair: pair,
        token: t,
    }
}

// Whether K6 stacks an entry for a bracket here: at level 0, while the top entry ends in BlockEnd.
fn needs_entry(s: State, stacks: &[u32; STACK_WORDS]) -> bool
    requires { s.indents.depth ≤ length stacks.now }
    ensures { result ≡ stacks_entry stacks.now s }
{
    if 0 < s.flow_level {
        return false;
    }
    top_ends(stacks, s.indents.depth)
}

// The indents behind the bracket: a non-ending entry with indent + 1 is stacked, or none.
fn stack_bracket(limits: Limits, entry: bool, s: State, stacks: &mut [u32; STACK_WORDS]) -> Indents
    requires { EntryFits limits entry stacks.old s }
    ensures { StacksBracket limits entry stacks.old stacks.new s result }
{
    let i = s.indents;
    if entry {
        return push(stacks, i.indent + 1, false, i);
    }
    i
}

// One level more, without a candidate.
fn open_level(stacks: &mut [u32; STACK_WORDS], level: usize, sequence: bool)
    requires { level < 255 }
    ensures { OpensLevel stacks.old stacks.new level (new_level sequence) }
{
    let inner = level + 1;
    clear_key(stacks, inner);
    set_level(stacks, inner, new_level(sequence));
}

// '[' or '{'. 48; 28: the 256th flow level; then what the rest of its line refuses.
pub fn fetch_flow_collection_start(
    limits: Limits,
    text: &[u8],
    sequence: bool,
    s: State,
    n: Counts,
    stacks: &mut [u32; STACK_WORDS],
) -> Result<Brief, Refusal>
    requires { Ready limits text.now stacks.old s × OneByte text.now s.place }
    ensures { FetchesQuiet limits text.now stacks.old stacks.new (bracket_words sequence stacks.old n.count s) n s (fetch_flow_collection_start limits sequence (state_of text.now stacks.old n.count s)) (brief_fetched result) }
{
    let entry = needs_entry(s, stacks);
    if entry & (limits.entries <= s.indents.depth) {
        return full(s.place.mark);
    }
    if limits.levels <= s.flow_level {
        return refuse(28, s.place.mark);
    }
    let next = rest_of_line(text, s.place.skip_blank())?;
    s.save_key(n.count, stacks);
    let i = stack_bracket(limits, entry, s, stacks);
    open_level(stacks, s.flow_level, sequence);
    let t = s.with_indents(i).with_level(s.flow_level + 1);
    let kind = pick(sequence, Kind::FlowSequenceStart, Kind::FlowMappingStart);
    Ok(past(t, false, kind, next, false))
}

// ']' or '}'. 47: not the latest open one's kind, or none is open. Its level's candidate and data stay behind, unread.
pub fn fetch_flow_collection_end(
    limits: Limits,
    text: &[u8],
    sequence: bool,
    s: State,
    stacks: &[u32; STACK_WORDS],
) -> Result<Brief, Refusal>
    requires { Ready limits text.now stacks.now s × OneByte text.now s.place }
    ensures { (n : counts.Counts) → FetchesQuiet limits text.now stacks.now stacks.now stacks.now n s (fetch_flow_collection_end sequence (state_of text.now stacks.now n.count s)) (brief_fetched result) }
{
    if s.flow_level == 0 {
        return refuse(47, s.place.mark);
    }
    let l = level_data(stacks, s.flow_level);
    if l.sequence != sequence {
        return refuse(47, s.place.mark);
    }
    let next = rest_of_line(text, s.place.skip_blank())?;
    let t = s.with_level(s.flow_level - 1);
    let kind = pick(sequence, Kind::FlowSequenceEnd, Kind::FlowMappingEnd);
    Ok(past(t, l.implicit, kind, next, true))
}

// ',' in flow.
pub fn fetch_flow_entry(
    limits: Limits,
    text: &[u8],
    s: State,
    stacks: &mut [u32; STACK_WORDS],
) -> Result<Brief, Refusal>
    requires { Ready limits text.now stacks.old s × OneByte text.now s.place × (0 < s.flow_level) }
    ensures { (n : counts.Counts) → FetchesQuiet limits text.now stacks.old stacks.new (comma_words stacks.old s) n s (fetch_flow_entry (state_of text.now stacks.old n.count s)) (brief_fetched result) }
{
    let next = rest_of_line(text, s.place.skip_blank())?;
    s.remove_key(stacks);
    let l = level_data(stacks, s.flow_level);
    set_level(stacks, s.flow_level, new_level(l.sequence));
    Ok(past(s, l.implicit, Kind::FlowEntry, next, false))
}
