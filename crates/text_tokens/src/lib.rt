// The lexemes that hold text: scalars, tags, anchors and aliases save a candidate and forbid the next; a block scalar allows it.
// A directive leaves all blocks. Each is read first: a refusal leaves the stacks as they were.
#![tactic(auto)]

ghost use Rattle.std.specs.Prelude.{false, true, Ok, ◌≡◌, ◌<◌, ◌^◌, ◌≤◌, drop, get_or, length};
ghost use Rattle.yaml_text.specs.Char.{'!'};
ghost use Rattle.yaml_text.specs.Class.{is_z, peek};
ghost use Rattle.yaml_text.specs.Utf8.{chars};
ghost use Rattle.yaml_scan.specs.Document.{fetch_directive};
ghost use Rattle.yaml_scan.specs.Fetch.{fetch_anchor, fetch_block_scalar, fetch_flow_scalar, fetch_plain_scalar, fetch_tag};
ghost use Rattle.rooms.specs.Room.{cleared};
ghost use Rattle.states.specs.Brief.{brief_fetched};
ghost use Rattle.states.specs.Fetch.{FetchesText, OneByte, Ready};
ghost use Rattle.states.specs.Key.{removed_words};
ghost use Rattle.states.specs.Rest.{rest_at};
ghost use Rattle.states.specs.State.{state_of};
ghost use Rattle.text_tokens.specs.Lexeme.{FetchesSaved, ReadsLent, TakesLent, unused};

use block_scalars::scan_block_scalar;
use chars::mark::Place;
use directives::scan_directive;
use documents::leave_blocks;
use events::{Counts, closing};
use plain::scan_plain_scalar;
use quoted::scan_flow_scalar;
use stacks::STACK_WORDS;
use stacks::indent::drop_non_ending;
use states::{Brief, Fetched, State, behind, emit_lexeme};
use tags::anchor::scan_anchor;
use tags::tag::scan_tag;
use yaml_scan::Limits;
use yaml_text::Refusal;

// What the reader answers. It is lent the text from the place on, and the unused end of the byte buffer.
fn read_from<R, F: FnOnce(&[u8], &mut [u8]) -> R>(
    text: &[u8],
    p: Place,
    used: u32,
    bytes: &mut [u8],
    reader: F,
) -> R
    requires stands { p.at ≤ length text.now }
    requires takes { TakesLent F.FnOnce reader (rest_at text.now p) (unused used bytes.old) }
    ensures { ReadsLent F.FnOnce reader (rest_at text.now p) bytes.old bytes.new used result }
{
    let from = bytes.len().min(used as usize);
    let at = p.at;
    reader(&text[at..], &mut bytes[from..])
}

// It is never refused.
pub fn fetch_plain_scalar(
    limits: Limits,
    text: &[u8],
    s: State,
    n: Counts,
    stacks: &mut [u32; STACK_WORDS],
    bytes: &mut [u8],
) -> Brief
    requires { Ready limits text.now stacks.old s × (n.used < 2 ^ 31) × (is_z (peek (chars (drop s.place.at text.now)) 0) ≡ false) }
    ensures { FetchesSaved limits text.now stacks.old stacks.new bytes.old bytes.new n s (λ t. fetch_plain_scalar t) (brief_fetched (Ok result)) }
{
    let l = read_from(text, s.place, n.used, bytes, |rest, out| {
        scan_plain_scalar(rest, s.place.mark, 0 < s.flow_level, n.used, out)
    });
    s.save_key(n.count, stacks);
    let t = l.token;
    Brief::Goes {
        state: s.moved(behind(s.place, l.next), false, false),
        pair: false,
        token: t,
    }
}

// ':' may stand directly behind it (K5).
pub fn fetch_flow_scalar(
    limits: Limits,
    text: &[u8],
    single: bool,
    s: State,
    n: Counts,
    stacks: &mut [u32; STACK_WORDS],
    bytes: &mut [u8],
) -> Result<Fetched, Refusal>
    requires { Ready limits text.now stacks.old s × OneByte text.now s.place × (n.used < 2 ^ 31) }
    ensures { FetchesSaved limits text.now stacks.old stacks.new bytes.old bytes.new n s (λ t. fetch_flow_scalar single t) result }
{
    let l = read_from(text, s.place, n.used, bytes, |rest, out| {
        scan_flow_scalar(
            rest,
            s.place.mark,
            0 < s.flow_level,
            single,
            s.indents.indent,
            n.used,
            out,
        )
    })?;
    s.save_key(n.count, stacks);
    let t = s.moved(behind(s.place, l.next), false, false);
    Ok(Fetched::Goes(closing(0, l.token), t.adjacent_here()))
}

// The entries that end no block go first.
pub fn fetch_block_scalar(
    limits: Limits,
    text: &[u8],
    literal: bool,
    s: State,
    n: Counts,
    stacks: &mut [u32; STACK_WORDS],
    bytes: &mut [u8],
) -> Result<Fetched, Refusal>
    requires { Ready limits text.now stacks.old s × OneByte text.now s.place × (n.used < 2 ^ 31) }
    ensures { FetchesSaved limits text.now stacks.old stacks.new bytes.old bytes.new n s (λ t. fetch_block_scalar literal t) result }
{
    let i = drop_non_ending(stacks, s.indents);
    let l = read_from(text, s.place, n.used, bytes, |rest, out| {
        scan_block_scalar(rest, s.place.mark, literal, i.indent, n.used, out)
    })?;
    s.save_key(n.count, stacks);
    Ok(emit_lexeme(s.with_indents(i), l, true, true))
}

pub fn fetch_tag(
    limits: Limits,
    text: &[u8],
    s: State,
    n: Counts,
    stacks: &mut [u32; STACK_WORDS],
    bytes: &mut [u8],
) -> Result<Fetched, Refusal>
    requires { Ready limits text.now stacks.old s × OneByte text.now s.place × (n.used < 2 ^ 31) × (get_or text.now s.place.at 0 ≡ '!') }
    ensures { FetchesSaved limits text.now stacks.old stacks.new bytes.old bytes.new n s (λ t. fetch_tag t) result }
{
    let l = read_from(text, s.place, n.used, bytes, |rest, out| {
        scan_tag(rest, s.place.mark, 0 < s.flow_level, n.used, out)
    })?;
    s.save_key(n.count, stacks);
    Ok(emit_lexeme(s, l, false, false))
}

pub fn fetch_anchor(
    limits: Limits,
    text: &[u8],
    alias: bool,
    s: State,
    n: Counts,
    stacks: &mut [u32; STACK_WORDS],
    bytes: &mut [u8],
) -> Result<Fetched, Refusal>
    requires { Ready limits text.now stacks.old s × OneByte text.now s.place × (n.used < 2 ^ 31) }
    ensures { FetchesSaved limits text.now stacks.old stacks.new bytes.old bytes.new n s (λ t. fetch_anchor alias t) result }
{
    let l = read_from(text, s.place, n.used, bytes, |rest, out| {
        scan_anchor(rest, s.place.mark, alias, n.used, out)
    })?;
    s.save_key(n.count, stacks);
    Ok(emit_lexeme(s, l, false, false))
}

// At column 0, outside brackets.
pub fn fetch_directive(
    limits: Limits,
    text: &[u8],
    s: State,
    n: Counts,
    stacks: &mut [u32; STACK_WORDS],
    bytes: &mut [u8],
) -> Result<Fetched, Refusal>
    requires { Ready limits text.now stacks.old s × OneByte text.now s.place × (n.used < 2 ^ 31) }
    ensures { FetchesText limits text.now stacks.old stacks.new (removed_words stacks.old s) bytes.old (cleared bytes.old n.used) bytes.new n s
        (fetch_directive (state_of text.now stacks.old n.count s)) result }
{
    let l = read_from(text, s.place, n.used, bytes, |rest, out| {
        scan_directive(rest, s.place.mark, n.used, out)
    })?;
    let u = leave_blocks(s, stacks);
    let p = behind(s.place, l.next);
    let t = s.with_indents(u.indents).moved(p, true, false);
    Ok(Fetched::Goes(closing(u.ended, l.token), t))
}
