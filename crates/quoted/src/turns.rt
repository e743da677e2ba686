// One turn over a quoted scalar: a blank, a break, a run of characters, an escape or a quote.
ghost use Rattle.std.specs.Prelude.{◌+◌, ◌<◌, ◌^◌, ◌≤◌, false, ◌≡◌, drop, get_or, length};
ghost use Rattle.yaml_text.specs.Char.{backslash};
ghost use Rattle.yaml_text.specs.Mark.{break_length};
ghost use Rattle.yaml_text.specs.Utf8.{chars};
ghost use Rattle.chars.specs.Bytes.{CharAt};
ghost use Rattle.chars.specs.Parts.{Spans};
ghost use Rattle.chars.specs.View.{Small, Stands};
ghost use Rattle.quoted.specs.declared.turns.Turned.TheVariants.{Goes};
ghost use Rattle.quoted.specs.Modes.{line_held, owed};
ghost use Rattle.quoted.specs.Texts.{inner, ordinary, quote_by, special, words};
ghost use Rattle.quoted.specs.Advance.{Advances, Sound, TextAt, blank_turned, break_turned, quote_of, text_turn};

use crate::fold::{Mode, put_kept};
use chars::class::{is_blank, is_break};
use chars::code::{BACKSLASH, TAB};
use chars::mark::{Place, break_length, is_marker};
use chars::pick::pick;
use chars::refuse::refuse;
use escapes::escape::escape;
use reading::Written;
use rooms::{copy, put, put_char};
use utf8::{byte, char_at};
use yaml_text::{Decoded, Mark, Refusal};

// What holds for the whole scalar. The text and the lent bytes stay beside it: with them in a struct each promise would name their fields, entry and
// exit, in place of `text.now`, `out.old` and `out.new`.
#[derive(Clone, Copy)]
pub struct Quote {
    pub single: bool,
    pub indent: u32,
    pub start: Mark,
}

// The state of the reading: how many bytes of text so far, where, what came before.
// The count and the place stand first here and in `Written`, in the same order, so that a turn's answer is kept in registers: else each goes through
// memory.
#[derive(Clone, Copy)]
pub struct Progress {
    pub count: usize,
    pub place: Place,
    pub mode: Mode,
}

// A turn leads to the next one, or to the scalar's end: its text, and the place behind the closing quote. Neither is an error, so it is no `Result`.
#[derive(Clone, Copy)]
pub enum Turned {
    Goes(Progress),
    Closes(Written),
}

fn goes(place: Place, mode: Mode, count: usize) -> Turned
    ensures { result ≡ Goes (record { place = place; mode = mode; count = count }) }
{
    Turned::Goes(Progress { count, place, mode })
}

// Over the blank c. 36: a tab as indentation, after a break.
fn on_blank(q: Quote, t: Progress, c: u32) -> Result<Turned, Refusal>
    requires { Small t.place }
    ensures { result ≡ blank_turned q t c }
{
    let p = t.place;
    let m = p.mark;
    let mode = t.mode;
    if mode.is_broken() & (c == TAB) & (m.col + 1 < q.indent) {
        return refuse(36, m);
    }
    Ok(goes(p.skip_blank(), mode.after_blank(p.at), t.count))
}

// Over the break here.
fn on_break(text: &[u8], t: Progress) -> Turned
    requires { Small t.place × (owed 0 t.mode < 2 ^ 31) }
    ensures { result ≡ break_turned (break_length (chars (drop t.place.at text.now))) t }
{
    let p = t.place;
    let mode = t.mode;
    goes(
        p.skip_linebreak(break_length(text, p.at)),
        mode.after_break(),
        t.count,
    )
}

fn quote_char(single: bool) -> u8
    ensures { result ≡ quote_by single }
{
    pick(single, b'\'', b'"')
}

// A quote: a single one that stands twice is text.
fn on_quote(text: &[u8], q: Quote, w: Written, out: &mut [u8]) -> Turned
    requires { Sound text.now (text_turn w) × CharAt text.now w.place.at (quote_by q.single) 1 }
    ensures { Advances text.now q out.old out.new (text_turn w) (Ok result) }
{
    let p = w.place;
    let n = w.count;
    if q.single & (byte(text, p.at + 1) == b'\'') {
        put(out, n, b'\'');
        return goes(p.skip_n_non_blank(2), Mode::Chars, n + 1);
    }
    Turned::Closes(Written {
        count: n,
        place: p.skip_blank(),
    })
}

// A backslash: an escaped break, or an escape (37 to 39).
fn on_backslash(text: &[u8], q: Quote, w: Written, out: &mut [u8]) -> Result<Turned, Refusal>
    requires { Sound text.now (text_turn w) × CharAt text.now w.place.at backslash 1 × (q.single ≡ false) }
    ensures { Advances text.now q out.old out.new (text_turn w) result }
{
    let p = w.place;
    let n = w.count;
    let k = break_length(text, p.at + 1);
    if 0 < k {
        let e = p.skip_blank();
        return Ok(goes(e.skip_linebreak(k), Mode::Escaped, n));
    }
    // Taken apart, as 01 has it.
    let r = escape(text, p, q.start);
    let Ok(e) = r else {
        return Err(r.unwrap_err());
    };
    let m = put_char(out, n, e.code);
    Ok(goes(e.next, Mode::Chars, m))
}

// Most characters of a text by far: no blank, break, quote or backslash.
#[tactic(auto, unfolding(crate::specs::Texts::ordinary))]
fn is_ordinary(b: u8) -> bool
    ensures { result ≡ ordinary b }
{
    (b'(' <= b) & (b <= b'[') | (b']' <= b) & (b <= 127)
}

// Whether a run of text ends at the character c.
#[tactic(auto, unfolding(crate::specs::Texts::special))]
fn is_special(c: u32, single: bool) -> bool
    ensures { result ≡ special single c }
{
    is_blank(c) | is_break(c) | (c == quote_char(single) as u32) | !single & (c == BACKSLASH)
}

// Whether the byte b at a place is a space before text that stands for itself. spaces: whether any counts.
#[tactic(auto, unfolding(crate::specs::Texts::inner))]
fn is_inner(text: &[u8], at: usize, b: u8, spaces: bool) -> bool
    requires { at ≤ length text.now }
    ensures { result ≡ inner spaces b (get_or text.now (at + 1) 0) }
{
    if spaces & (b == b' ') {
        return is_ordinary(byte(text, at + 1));
    }
    false
}

// The place behind the run of text here, with the single spaces in it if they count. By hand: a step is a character of one to four bytes.
fn text_end(text: &[u8], start: Place, single: bool, spaces: bool) -> Place
    requires { Stands text.now start }
    ensures { Spans text.now start result (words spaces single start.mark (chars (drop start.at text.now))) }
{
    let mut p = start;
    loop {
        let at = p.at;
        let b = byte(text, at);
        if is_ordinary(b) {
            p = p.skip_blank();
        } else if is_inner(text, at, b, spaces) {
            p = p.skip_blank();
        } else {
            let d = char_at(text, at);
            let Decoded::Char { code, len } = d else {
                return p;
            };
            if is_special(code, single) {
                return p;
            }
            p = p.skip_non_blank(len);
        }
    }
}

// A character of the text that nothing is kept back before.
fn on_char(text: &[u8], q: Quote, w: Written, out: &mut [u8]) -> Result<Turned, Refusal>
    requires { Sound text.now (text_turn w) × TextAt text.now w.place.at }
    ensures { Advances text.now q out.old out.new (text_turn w) result }
{
    let p = w.place;
    let n = w.count;
    let at = p.at;
    let c = byte(text, at);
    if c == quote_char(q.single) {
        return Ok(on_quote(text, q, w, out));
    }
    if (c == b'\\') & !q.single {
        return on_backslash(text, q, w, out);
    }
    // Blanks are held against the indent: not below it, a space in a line of text is text.
    let e = text_end(text, p, q.single, q.indent <= p.mark.col + 1);
    let to = e.at;
    copy(out, n, &text[at..to]);
    Ok(goes(e, Mode::Chars, n + (to - at)))
}

// Whether the text here may stand in its line, where it is held against that. 33: a document marker; 35: a column below the indent.
#[tactic(auto, using(crate::proofs::Lines::by_line))]
fn check_line(text: &[u8], q: Quote, p: Place, mode: Mode) -> Result<(), Refusal>
    requires { Small p }
    ensures { result ≡ line_held (quote_of q) mode p.mark (chars (drop p.at text.now)) }
{
    if mode.is_checked(byte(text, p.at) == quote_char(q.single)) {
        if is_marker(text, p) {
            return refuse(33, q.start);
        }
        if p.mark.col + 1 < q.indent {
            return refuse(35, q.start);
        }
    }
    Ok(())
}

// A character of the text.
#[tactic(auto, using(crate::proofs::Chosen::wrong_turns))]
fn on_text(text: &[u8], q: Quote, t: Progress, out: &mut [u8]) -> Result<Turned, Refusal>
    requires { Sound text.now t × TextAt text.now t.place.at }
    ensures { Advances text.now q out.old out.new t result }
{
    let p = t.place;
    let mode = t.mode;
    check_line(text, q, p, mode)?;
    let count = put_kept(text, p.at, mode, t.count, out);
    on_char(text, q, Written { count, place: p }, out)
}

// One turn. 34: the end.
pub fn quoted_turn(text: &[u8], q: Quote, t: Progress, out: &mut [u8]) -> Result<Turned, Refusal>
    requires { Sound text.now t }
    ensures { Advances text.now q out.old out.new t result }
{
    let p = t.place;
    let d = char_at(text, p.at);
    let Decoded::Char { code, len: _ } = d else {
        return refuse(34, q.start);
    };
    if is_blank(code) {
        return on_blank(q, t, code);
    }
    if is_break(code) {
        return Ok(on_break(text, t));
    }
    on_text(text, q, t, out)
}
