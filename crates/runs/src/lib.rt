// Runs of characters of a class, within a line.
#![tactic(auto)]

ghost use Rattle.std.specs.Prelude.{◌≡◌, ◌<◌, ◌^◌, drop};
ghost use Rattle.yaml_text.specs.Utf8.{chars};
ghost use Rattle.yaml_text.specs.Mark.{run_of};
ghost use Rattle.yaml_lexeme.specs.Tag.{uri_at};
ghost use Rattle.chars.specs.Ascii.{Ascii, tag_ascii, uri_ascii};
ghost use Rattle.chars.specs.Bytes.{CharAt};
ghost use Rattle.chars.specs.Parts.{Spans};
ghost use Rattle.chars.specs.View.{Stands, view};
ghost use Rattle.rooms.specs.Room.{cleared};
ghost use Rattle.runs.specs.Run.{WritesOr, one_char};

use chars::class::{Class, TagChar, UriChar};
use chars::mark::Place;
use escapes::percent::percent;
use reading::Written;
use rooms::{clear_from, put, put_char};
use utf8::{byte, char_at};
use yaml_text::{Decoded, Mark, Refusal};

// The place behind the longest run of characters of a class.
// By hand: a place goes on by what stands there, with its mark, and no index is counted.
pub fn run_of<C: Class>(text: &[u8], start: Place) -> Place
    requires { Stands text.now start }
    ensures { Spans text.now start result (run_of C.test start.mark (chars (drop start.at text.now))) }
{
    let mut p = start;
    while let Decoded::Char { code, len } = char_at(text, p.at) {
        if !C::has(code) {
            return p;
        }
        p = p.skip_non_blank(len);
    }
    p
}

// A class of ASCII characters alone: each of them is one byte.
pub trait AsciiClass: Class {
    ghost ascii: { Ascii Self.test };
}

impl AsciiClass for UriChar {
    ghost ascii = { uri_ascii };
}

impl AsciiClass for TagChar {
    ghost ascii = { tag_ascii };
}

// The character c that stands at p, or the one that its percent escape is, written at n. A refusal leaves the room as it was.
fn put_one(
    text: &[u8],
    p: Place,
    c: u8,
    start: Mark,
    n: usize,
    out: &mut [u8],
) -> Result<Written, Refusal>
    requires { Stands text.now p × CharAt text.now p.at c 1 × (c < 128) × (n < 2 ^ 62) }
    ensures { WritesOr text.now out.old out.new out.old p n result (one_char start (view text.now p)) }
{
    if c != b'%' {
        put(out, n, c);
        let place = p.skip_blank();
        return Ok(Written {
            count: n + 1,
            place,
        });
    }
    // Taken apart, as 01 has it.
    let r = percent(text, p, start);
    let Ok(e) = r else {
        return Err(r.unwrap_err());
    };
    let count = put_char(out, n, e.code);
    Ok(Written {
        count,
        place: e.next,
    })
}

// The longest run of characters of a class, percent escapes decoded, written from n on. A refusal leaves zeros from n on.
// By hand: a place goes on by what stands there, with its mark, and no index is counted.
pub fn uri_run<C: AsciiClass>(
    text: &[u8],
    from: Place,
    start: Mark,
    n: usize,
    out: &mut [u8],
) -> Result<Written, Refusal>
    requires { Stands text.now from × (n < 2 ^ 32) }
    ensures { WritesOr text.now out.old out.new (cleared out.old n) from n result (uri_at C.test start (view text.now from)) }
{
    let mut w = Written {
        count: n,
        place: from,
    };
    loop {
        let c = byte(text, w.place.at);
        if !C::has(c as u32) {
            return Ok(w);
        }
        let r = put_one(text, w.place, c, start, w.count, out);
        let Ok(next) = r else {
            clear_from(out, n);
            return r;
        };
        w = next;
    }
}
