// A text between double quotes, with escapes for what can't be shown.
use crate::Output;
use showing::show::{char_len, is_shown};
use std::io::Error;
use utf8::look;

// A character that can't be shown, as an escape of double quotes. Each is one piece of a length that is known here, which is stored at once.
fn put_escape(to: &mut Output, c: u32) -> Result<(), Error> {
    let mut d = [0u8; 16];
    match c {
        0..=0xff => {
            io::hex(c as u64, 2, &mut d);
            to.put(&[b'\\', b'x', d[0], d[1]])
        }
        0x100..=0xffff => {
            io::hex(c as u64, 4, &mut d);
            to.put(&[b'\\', b'u', d[0], d[1], d[2], d[3]])
        }
        _ => {
            io::hex(c as u64, 8, &mut d);
            to.put(&[b'\\', b'U', d[0], d[1], d[2], d[3], d[4], d[5], d[6], d[7]])
        }
    }
}

// A character that is not shown as it is.
fn put_sign(to: &mut Output, c: u32) -> Result<(), Error> {
    match c {
        9 => to.put(b"\\t"),
        10 => to.put(b"\\n"),
        13 => to.put(b"\\r"),
        34 => to.put(b"\\\""),
        92 => to.put(b"\\\\"),
        _ => put_escape(to, c),
    }
}

// A text with its quotes. Characters that are shown as they are go on together. By hand: a step is a character of one to four bytes.
pub fn put_quoted(to: &mut Output, s: &[u8]) -> Result<(), Error> {
    to.put(b"\"")?;
    let mut from = 0;
    let mut at = 0;
    while at < s.len() {
        let c = look(s, at);
        let next = at + char_len(s, at);
        if c == 34 || c == 92 || !is_shown(c) {
            if from < at {
                to.put(&s[from..at])?;
            }
            put_sign(to, c)?;
            from = next;
        }
        at = next;
    }
    to.put(&s[from..])?;
    to.put(b"\"")
}
