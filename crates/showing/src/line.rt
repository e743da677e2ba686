// The line of a text in which a place stands, and the window of it that is shown.
ghost use Rattle.std.specs.Prelude.{◌<◌, ◌≤◌, length};
ghost use Rattle.showing.specs.Window.{Within};

use crate::show::{Shown, char_len};
use std::fmt;
use std::fmt::Display;

// The most characters of a line that are shown, and the most before the place where the line has more.
const WINDOW: usize = 70;

const BEFORE: usize = 40;

// What is shown of a line: these bytes of it, cut at the front or not, at the end or not; and how many characters stand before the place.
#[derive(Clone, Copy)]
struct Window {
    from: usize,
    to: usize,
    cut_front: bool,
    cut_end: bool,
    before: usize,
}

// Where the n characters end that begin at a place, or the text.
fn skip_chars(s: &[u8], from: usize, n: usize) -> usize
    requires { from ≤ length s.now }
    ensures { (from ≤ result) × (result ≤ length s.now) }
{
    let mut at = from;
    for _ in 0..n {
        if s.len() <= at {
            return at;
        }
        at += char_len(s, at);
    }
    at
}

// How many characters a text has. By hand: a step is a character of one to four bytes.
fn count_chars(s: &[u8]) -> usize
    ensures { result ≤ length s.now }
{
    let mut at = 0;
    let mut n = 0;
    while at < s.len() {
        at += char_len(s, at);
        n += 1;
    }
    n
}

// The place of a character, by its index. Behind the last, the end of the text.
pub fn place_of(text: &[u8], index: u32) -> usize
    ensures { result ≤ length text.now }
{
    skip_chars(text, 0, index as usize)
}

fn is_break(b: u8) -> bool {
    (b == b'\n') | (b == b'\r')
}

fn is_space(b: u8) -> bool {
    (b == b' ') | (b == b'\t') | is_break(b)
}

// Whether a line ends right before a place: behind LF, and behind CR unless LF follows it.
fn begins_line(text: &[u8], at: usize) -> bool
    requires { (0 < at) × (at ≤ length text.now) }
{
    match text[at - 1] {
        b'\n' => true,
        b'\r' => utf8::byte(text, at) != b'\n',
        _ => false,
    }
}

// Where the line begins in which a place stands.
fn line_start(text: &[u8], place: usize) -> usize
    requires { place ≤ length text.now }
    ensures { result ≤ place }
{
    for at in (1..=place).rev() {
        if begins_line(text, at) {
            return at;
        }
    }
    0
}

// Where the line ends in which a place stands.
pub fn line_end(text: &[u8], place: usize) -> usize
    requires { place ≤ length text.now }
    ensures { (place ≤ result) × (result ≤ length text.now) }
{
    for at in place..text.len() {
        if is_break(text[at]) {
            return at;
        }
    }
    text.len()
}

// Where the last line ends that has more than blanks, if there is one.
fn text_end(text: &[u8]) -> usize
    ensures { result ≤ length text.now }
{
    for at in (0..text.len()).rev() {
        if !is_space(text[at]) {
            return at + 1;
        }
    }
    0
}

// How many characters of a line are left out before the window.
fn left_out(all: usize, before: usize) -> usize
    ensures { (result ≤ all) × (result ≤ before) }
{
    all.saturating_sub(WINDOW)
        .min(before.saturating_sub(BEFORE))
}

// The window of a line around a place in it.
fn window_of(line: &[u8], place: usize) -> Window
    requires { place ≤ length line.now }
    ensures { Within (length line.now) result }
{
    let before = count_chars(&line[0..place]);
    let all = before + count_chars(&line[place..]);
    let out = left_out(all, before);
    let from = skip_chars(line, 0, out);
    let to = skip_chars(line, from, WINDOW);
    Window {
        from,
        to,
        cut_front: 0 < out,
        cut_end: to < line.len(),
        before: before - out,
    }
}

// Dots where a line is cut.
fn dots(cut: bool) -> &'static str {
    if cut { "..." } else { "" }
}

fn write_blanks<W: fmt::Write>(f: &mut fmt::Formatter<W>, n: usize) -> fmt::Result {
    for _ in 0..n {
        f.write_str(" ")?;
    }
    Ok(())
}

// A window of a line with the caret below it, two blanks from the margin.
fn write_window<W: fmt::Write>(f: &mut fmt::Formatter<W>, line: &[u8], w: Window) -> fmt::Result
    requires { Within (length line.now) w }
{
    let front = dots(w.cut_front);
    let shown = Shown(&line[w.from..w.to]);
    write!(f, "  {}{}{}\n  ", front, shown, dots(w.cut_end))?;
    write_blanks(f, front.len())?;
    write_blanks(f, w.before)?;
    f.write_str("^\n")
}

// The line in which a place of a text stands, with the caret below the place; nothing for an empty line.
// At the end of the text the place is the end of the last line that has more than blanks.
#[derive(Clone, Copy)]
pub struct Marked<'a> {
    pub text: &'a [u8],
    pub place: usize,
}

impl<'a> Display for Marked<'a> {
    fn fmt<W: fmt::Write>(&self, f: &mut fmt::Formatter<W>) -> fmt::Result {
        let text = self.text;
        let place = if self.place < text.len() {
            self.place
        } else {
            text_end(text)
        };
        let start = line_start(text, place);
        let line = &text[start..line_end(text, place)];
        if line.is_empty() {
            return Ok(());
        }
        write_window(f, line, window_of(line, place - start))
    }
}
