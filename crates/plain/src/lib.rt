// K7: plain scalars.
#![tactic(auto)]

ghost use Rattle.std.specs.Prelude.{Ok, false, ◌≡◌, ◌+◌, ◌-◌, ◌<◌, ◌^◌, ◌≤◌, drop, get_or, length};
ghost use Rattle.yaml_text.specs.Class.{is_blank, is_z, peek};
ghost use Rattle.yaml_text.specs.Mark.{along_by};
ghost use Rattle.yaml_text.specs.Refusal.{got};
ghost use Rattle.yaml_text.specs.Utf8.{chars, first};
ghost use Rattle.yaml_lexeme.specs.Plain.{plain_stops, plain_text, scan_plain_scalar};
ghost use Rattle.chars.specs.Blocks.{ordinary};
ghost use Rattle.chars.specs.Each.{Blocks};
ghost use Rattle.chars.specs.Parts.{Spans};
ghost use Rattle.chars.specs.View.{Small, Stands, view};
ghost use Rattle.reading.specs.Reading.{ReaderGiven, Lexes, first_at};
ghost use Rattle.plain.specs.Text.{ends_at_colon, text_length, usual};

use chars::block;
use chars::block::{Ordinary, is_ordinary};
use chars::class::{is_blank, is_blank_or_breakz, is_bom, is_breakz, is_flow};
use chars::mark::Place;
use reading::{Lexeme, text_at};
use utf8::{byte, char_at, is_tail, lead_len, look, three_bytes, two_bytes};
use yaml_lexeme::{Kind, Style};
use yaml_text::{Decoded, Mark};

// Whether a ':' ends a plain scalar before the character at a place.
#[tactic(auto, unfolding(crate::specs::Text::ends_at_colon))]
fn ends_at_colon(text: &[u8], at: usize, flow: bool) -> bool
    ensures { result ≡ ends_at_colon flow (peek (chars (drop at text.now)) 0) }
{
    let d = look(text, at);
    is_blank_or_breakz(d) | flow & is_flow(d)
}

// Whether a byte is a blank. One from 128 up is compared with neither of them, since a text may have nothing but such bytes.
fn is_blank_byte(b: u8) -> bool
    ensures { result ≡ is_blank b }
{
    if 127 < b {
        return false;
    }
    is_blank(b as u32)
}

// Whether a plain scalar ends at the byte b below 128 that stands at a place. blank: after a blank. Text, offset and byte stay apart, here and below, as
// the loop has them: a slice from the offset on would be made anew in each turn.
#[tactic(auto, using(crate::proofs::Ends::by_char))]
fn stops(text: &[u8], at: usize, flow: bool, blank: bool, b: u8) -> bool
    requires { (at ≤ length text.now) × (b < 128) }
    ensures { result ≡ plain_stops flow blank b (peek (chars (drop (at + 1) text.now)) 0) }
{
    if is_flow(b as u32) {
        return flow;
    }
    if b == b':' {
        return ends_at_colon(text, at + 1, flow);
    }
    if b == b'#' {
        return blank;
    }
    is_breakz(b as u32)
}

// The character that begins with the byte b from 128 up at a place. Of four bytes there are few.
fn wide_at(text: &[u8], at: usize, b: u8) -> Decoded
    requires { (at ≤ length text.now) × (b ≡ get_or text.now at 0) × (128 ≤ b) }
    ensures { result ≡ first (drop at text.now) }
{
    match lead_len(b) {
        2 => two_bytes(b, byte(text, at + 1)),
        3 => three_bytes(b, byte(text, at + 1), byte(text, at + 2)),
        _ => char_at(text, at),
    }
}

// Whether the byte b at a place and the two behind it are one character by their form: these leads begin no surrogate, no byte order mark and
// no longer form than need be.
#[tactic(auto, unfolding(crate::specs::Text::usual))]
fn is_usual(text: &[u8], at: usize, b: u8) -> bool
    requires { at ≤ length text.now }
    ensures { result ≡ usual b (get_or text.now (at + 1) 0) (get_or text.now (at + 2) 0) }
{
    if (225 <= b) & (b <= 236) {
        return is_tail(byte(text, at + 1)) & is_tail(byte(text, at + 2));
    }
    false
}

// How many bytes the character takes that begins with the byte b at a place, if it is text.
#[tactic(auto, using(crate::proofs::Ends::by_byte))]
fn text_length(text: &[u8], at: usize, flow: bool, blank: bool, b: u8) -> Option<usize>
    requires { (at ≤ length text.now) × (b ≡ get_or text.now at 0) }
    ensures { result ≡ text_length flow blank text.now at }
{
    if b < 128 {
        if stops(text, at, flow, blank, b) {
            return None;
        }
        return Some(1);
    }
    if is_usual(text, at, b) {
        return Some(3);
    }
    let d = wide_at(text, at, b);
    let Decoded::Char { code, len } = d else {
        return None;
    };
    if is_bom(code) {
        return None;
    }
    Some(len)
}

// Past the blocks of 16 ordinary bytes here. Many scalars have not one such byte behind their first character, and for them no block is looked at.
fn past_blocks(text: &[u8], start: usize) -> usize
    requires { start ≤ length text.now }
    ensures { Blocks ordinary text.now start result }
{
    if !is_ordinary(byte(text, start)) {
        return start;
    }
    block::past_blocks::<Ordinary>(text, start)
}

// The place `end`, behind characters that have so many bytes more than one each.
fn behind(start: Place, end: usize, extra: usize) -> Place
    requires { Small start × (start.at + extra ≤ end) × (end ≤ start.at + 2 ^ 20) }
    ensures { result ≡ record { at = end; mark = along_by (end - start.at - extra) start.mark } }
{
    let n = end - start.at;
    start.skip_chars(n, (n - extra) as u32)
}

// The place behind the last character of the text that goes on at `start`, which no blank stands before.
// The loop counts bytes by hand: a turn takes one, or all of a character, and one line's marks follow from them. Blocks are looked for once: to look at each byte would cost words more than it saves.
fn text_end(text: &[u8], start: Place, flow: bool) -> Place
    requires { Stands text.now start }
    ensures { Spans text.now start result (plain_text flow false start.mark (chars (drop start.at text.now))) }
{
    let mut at = past_blocks(text, start.at);
    let mut end = at;
    let mut extra = 0;
    loop {
        let b = byte(text, at);
        if is_ordinary(b) {
            at += 1;
            end = at;
        } else if is_blank_byte(b) {
            at += 1;
        } else {
            let Some(n) = text_length(text, at, flow, end < at, b) else {
                return behind(start, end, extra);
            };
            at += n;
            end = at;
            extra += n - 1;
        }
    }
}

// From its first character, whatever that is.
pub fn scan_plain_scalar(text: &[u8], start: Mark, flow: bool, used: u32, out: &mut [u8]) -> Lexeme
    requires { ReaderGiven text.now start used × (is_z (peek (chars text.now) 0) ≡ false) }
    ensures { Lexes text.now out.old out.new used (Ok result) (got (scan_plain_scalar flow (view text.now (first_at start)))) }
{
    let first = Place::first_at(start);
    let len = lead_len(byte(text, 0)) as usize;
    let e = text_end(text, first.skip_non_blank(len), flow);
    let n = e.at;
    rooms::copy(out, 0, &text[..n]);
    Lexeme::new(
        Kind::Scalar {
            style: Style::Plain,
            text: text_at(used, n),
        },
        start,
        e.mark,
        e,
    )
}
