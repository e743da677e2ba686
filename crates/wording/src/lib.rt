// A refusal in words: where it stands in the sheet, what is wrong, what to do, and the line of the text with a caret under the place.
#![tactic(auto)]

pub mod bracket;
mod words;

use crate::bracket::{Open, write_bracket, write_too_far_left};
use crate::words::{HIDDEN_MARK, words};
use chars::code::BYTE_ORDER_MARK;
use showing::Message;
use showing::line::{Marked, place_of};
use showing::show::Shown;
use std::fmt;
use std::fmt::Write;
use utf8::look;
use yaml_text::Refusal;

// Whether a refusal is about the sheet as a whole, and has no place in it.
fn has_no_place(number: u32) -> bool {
    matches!(number, 1 | 5 | 52)
}

// Whether a refusal is only about a byte order mark: editors put one in front of a text, where nobody sees it.
fn is_hidden_mark(number: u32, c: u32) -> bool {
    matches!(number, 43 | 73) & (c == BYTE_ORDER_MARK)
}

// What is wrong and what to do, at a place of the text.
fn write_advice(
    out: &mut Message,
    text: &[u8],
    place: usize,
    number: u32,
    open: Option<Open>,
) -> fmt::Result {
    if is_hidden_mark(number, look(text, place)) {
        return out.write_str(HIDDEN_MARK);
    }
    match number {
        42 => write_too_far_left(out, open),
        47 => write_bracket(out, text, place, open),
        _ => out.write_str(words(number)),
    }
}

// A message about a place of the sheet, behind its name: `:LINE:COLUMN`, with columns from 1; the line of the place stands below.
fn write_placed(out: &mut Message, text: &[u8], f: Refusal, open: Option<Open>) -> fmt::Result {
    let place = place_of(text, f.mark.index);
    let col = f.mark.col as u64 + 1;
    write!(out, ":{}:{}: ", f.mark.line, col)?;
    write_advice(out, text, place, f.number, open)?;
    write!(out, " [{}]\n{}", f.number, Marked { text, place })
}

fn write_message(
    out: &mut Message,
    name: Option<&str>,
    text: &[u8],
    f: Refusal,
    open: Option<Open>,
) -> fmt::Result {
    match name {
        Some(file) => write!(out, "{}", Shown(file.as_bytes()))?,
        None => out.write_str("standard input")?,
    }
    if has_no_place(f.number) {
        return write!(out, ": {} [{}]\n", words(f.number), f.number);
    }
    write_placed(out, text, f, open)
}

// Writes a refusal in words on standard error. No name is standard input. 42 and 47 name the bracket that is open.
pub fn say(rt: &HostRuntime, name: Option<&str>, text: &[u8], f: Refusal, open: Option<Open>) {
    let mut out = Message::new();
    // A message that is too long is cut.
    let _ = write_message(&mut out, name, text, f, open);
    outlets::say(rt, out.as_str().as_bytes());
}
