// What stands outside every block: document markers, byte order marks and the end of the text. Each leaves all blocks.
#![tactic(auto)]

ghost use Rattle.std.specs.Prelude.{◌≡◌, true, ◌^◌, ◌<◌, ◌≤◌, drop};
ghost use Rattle.yaml_text.specs.Char.{byte_order_mark};
ghost use Rattle.yaml_text.specs.Mark.{is_marker};
ghost use Rattle.yaml_text.specs.Utf8.{chars};
ghost use Rattle.yaml_scan.specs.Document.{after_marker, fetch_byte_order_mark, fetch_document_indicator, fetch_stream_end, forced};
ghost use Rattle.chars.specs.Bytes.{CharAt};
ghost use Rattle.chars.specs.View.{Stands, view};
ghost use Rattle.reading.specs.Reading.{ReachesAs};
ghost use Rattle.stacks.specs.Indent.{Low};
ghost use Rattle.stacks.specs.Stack.{entry_words};
ghost use Rattle.states.specs.Fetch.{FetchesQuiet, Ready};
ghost use Rattle.states.specs.Key.{removed_words};
ghost use Rattle.states.specs.State.{state_of};
ghost use Rattle.documents.specs.Leave.{LeavesBlocks, goes_outside};

use chars::class::is_breakz;
use chars::mark::Place;
use chars::pick::pick;
use chars::refuse::refuse;
use events::{Counts, closing};
use gaps::blanks_and_comment;
use stacks::STACK_WORDS;
use stacks::frame::is_required;
use stacks::indent::{Unrolled, unroll};
use states::{Fetched, State};
use utf8::look;
use yaml_lexeme::{Kind, Token};
use yaml_scan::Limits;
use yaml_text::{Mark, Refusal};

// Out of every block: how many of them end, and the indents left. The candidate goes.
pub fn leave_blocks(s: State, stacks: &mut [u32; STACK_WORDS]) -> Unrolled
    requires { (s.flow_level ≤ 255) × Low entry_words s.indents }
    ensures { LeavesBlocks stacks.old stacks.new s result }
{
    let u = unroll(stacks, 0, s.indents);
    s.remove_key(stacks);
    u
}

// Outside every block, on from p behind a token.
fn go_on(s: State, u: Unrolled, p: Place, leads: bool, allowed: bool, t: Token) -> Fetched
    ensures { result ≡ goes_outside s u p leads allowed t }
{
    Fetched::Goes(
        closing(u.ended, t),
        s.with_indents(u.indents).moved(p, leads, allowed),
    )
}

// A byte order mark at column 0.
pub fn fetch_byte_order_mark(
    limits: Limits,
    text: &[u8],
    s: State,
    n: Counts,
    stacks: &mut [u32; STACK_WORDS],
) -> Result<Fetched, Refusal>
    requires { Ready limits text.now stacks.old s × CharAt text.now s.place.at byte_order_mark 3 }
    ensures { FetchesQuiet limits text.now stacks.old stacks.new (removed_words stacks.old s) n s
        (fetch_byte_order_mark (state_of text.now stacks.old n.count s)) result }
{
    let p = s.place;
    let m = p.mark;
    let e = p.skip_bom();
    let end = e.mark;
    let token = Token {
        kind: Kind::ByteOrderMark,
        start: m,
        end: end,
    };
    let u = leave_blocks(s, stacks);
    Ok(go_on(s, u, e, s.leading_whitespace, true, token))
}

// What follows a marker on its line: after `...` blanks or a comment, to the line's end. 49: text.
fn after_marker(text: &[u8], starts: bool, p: Place) -> Result<Place, Refusal>
    requires { Stands text.now p }
    ensures { ReachesAs text.now p result (after_marker starts (view text.now p)) }
{
    if starts {
        return Ok(p);
    }
    let e = blanks_and_comment(text, p)?;
    let at = e.at;
    if is_breakz(look(text, at)) {
        return Ok(e);
    }
    refuse(49, e.mark)
}

// `---` or `...`. 47: in flow. Matched, since `?` puts the place together again in memory.
pub fn fetch_document_indicator(
    limits: Limits,
    text: &[u8],
    starts: bool,
    s: State,
    n: Counts,
    stacks: &mut [u32; STACK_WORDS],
) -> Result<Fetched, Refusal>
    requires { Ready limits text.now stacks.old s × (is_marker s.place.mark (chars (drop s.place.at text.now)) ≡ true) }
    ensures { FetchesQuiet limits text.now stacks.old stacks.new (removed_words stacks.old s) n s
        (fetch_document_indicator starts (state_of text.now stacks.old n.count s)) result }
{
    let p = s.place;
    let m = p.mark;
    if 0 < s.flow_level {
        return refuse(47, m);
    }
    let e = p.skip_n_non_blank(3);
    match after_marker(text, starts, e) {
        Ok(next) => {
            let end = e.mark;
            let token = Token {
                kind: pick(starts, Kind::DocumentStart, Kind::DocumentEnd),
                start: m,
                end: end,
            };
            let u = leave_blocks(s, stacks);
            Ok(go_on(s, u, next, false, false, token))
        }
        Err(f) => Err(f),
    }
}

// The end of the text forces a new line.
#[tactic(auto, unfolding(yaml_scan::specs::Document::forced))]
fn forced(m: Mark) -> Mark
    requires { m.line < 2 ^ 31 }
    ensures { result ≡ forced m }
{
    if m.col == 0 {
        return m;
    }
    Mark {
        index: m.index,
        line: m.line + 1,
        col: 0,
    }
}

// 47: a bracket left open; then 41: a required key is pending.
pub fn fetch_stream_end(
    limits: Limits,
    text: &[u8],
    s: State,
    n: Counts,
    stacks: &[u32; STACK_WORDS],
) -> Result<Fetched, Refusal>
    requires { Ready limits text.now stacks.now s }
    ensures { FetchesQuiet limits text.now stacks.now stacks.now stacks.now n s
        (fetch_stream_end (state_of text.now stacks.now n.count s)) result }
{
    let here = s.place.mark;
    if 0 < s.flow_level {
        return refuse(47, here);
    }
    let end = forced(here);
    if is_required(stacks, s.flow_level) {
        return refuse(41, end);
    }
    let out = unroll(stacks, 0, s.indents);
    let token = Token {
        kind: Kind::StreamEnd,
        start: end,
        end: end,
    };
    Ok(Fetched::Ends(closing(out.ended, token)))
}
