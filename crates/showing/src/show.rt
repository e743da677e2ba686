// Which characters can be shown on a terminal, and how far each takes a text on.
ghost use Rattle.std.specs.Prelude.{◌+◌, ◌<◌, ◌≤◌, length};

use std::fmt;
use std::fmt::Display;
use std::str::from_utf8;
use utf8::{char_at, look};
use yaml_text::Decoded;

// Whether a character is shown as it is. Not so: control characters, those that have no width or turn the direction of writing, and those that look like a space
// and are another character.
pub fn is_shown(c: u32) -> bool {
    match c {
        0..=0x1f | 0x7f..=0xa0 | 0xad => false,
        0x61c | 0x1680 | 0x180e => false,
        0x2000..=0x200f | 0x2028..=0x202f | 0x205f..=0x206f => false,
        0x3000 | 0xfeff | 0xfff0..=0xfffb | 0xfffe | 0xffff => false,
        0xe0000..=0xe0fff => false,
        _ => true,
    }
}

// How many bytes the character at a place takes. A byte that begins none is taken alone.
pub fn char_len(s: &[u8], at: usize) -> usize
    requires { at < length s.now }
    ensures { (1 ≤ result) × (at + result ≤ length s.now) }
{
    let d = char_at(s, at);
    match d {
        Decoded::Char { code: _, len } => len,
        Decoded::Ill => 1,
        Decoded::End => 1,
    }
}

// The bytes of a character, as a terminal can show it: a tab as a blank, what has no sign of its own as '?'.
fn sign(s: &[u8]) -> &str {
    let c = look(s, 0);
    if c == 9 {
        return " ";
    }
    if is_shown(c) {
        return from_utf8(s).unwrap_or("?");
    }
    "?"
}

// A text, as a terminal can show it: one sign for each character, and for each byte that begins none.
#[derive(Clone, Copy)]
pub struct Shown<'a>(pub &'a [u8]);

impl<'a> Display for Shown<'a> {
    // By hand: a step is a character of one to four bytes.
    fn fmt<W: fmt::Write>(&self, f: &mut fmt::Formatter<W>) -> fmt::Result {
        let s = self.0;
        let mut at = 0;
        while at < s.len() {
            let n = char_len(s, at);
            f.write_str(sign(&s[at..at + n]))?;
            at += n;
        }
        Ok(())
    }
}
