// Places in a text: a byte offset with its mark, moved as "Marks and records" has it.
ghost use Rattle.std.specs.Prelude.{◌≡◌, ◌<◌, ◌^◌, ◌≤◌, drop};
ghost use Rattle.yaml_text.specs.Utf8.{chars};
ghost use Rattle.yaml_text.specs.Mark.{along, along_by, break_length, is_marker, new_line, origin, over_bom, skip_break};
ghost use Rattle.chars.specs.Bytes.{CharAt};
ghost use Rattle.chars.specs.Lines.{twice_more};
ghost use Rattle.chars.specs.View.{Moves, Small, Stands, past, view};

use crate::class::is_blank_or_breakz;
use utf8::{byte, look};
use yaml_text::Mark;

// A byte offset into a text, with the mark of the character there. That it stands in a text (`Stands`) is a fact of both, and a state keeps places without
// their text: with both in one struct each promise would have to say that the text is the same still.
#[derive(Clone, Copy)]
pub struct Place {
    pub at: usize,
    pub mark: Mark,
}

// The mark of a text's first character.
pub fn origin() -> Mark
    ensures { result ≡ origin }
{
    Mark {
        index: 0,
        line: 1,
        col: 0,
    }
}

impl Place {
    // The first character of a text.
    pub fn start() -> Self
        ensures { result ≡ record { at = 0; mark = origin } }
    {
        Place::first_at(origin())
    }

    // The first byte of a text that begins at a mark.
    pub fn first_at(mark: Mark) -> Self
        ensures { result ≡ record { at = 0; mark = mark } }
    {
        Place { at: 0, mark }
    }

    // Over n characters that take so many bytes, none of them a break.
    pub fn skip_chars(self, bytes: usize, n: u32) -> Self
        requires { Small self × (bytes ≤ 2 ^ 20) × (n ≤ 2 ^ 20) }
        ensures { result ≡ past self bytes (along_by n self.mark) }
    {
        let m = Mark {
            index: self.mark.index + n,
            line: self.mark.line,
            col: self.mark.col + n,
        };
        Place {
            at: self.at + bytes,
            mark: m,
        }
    }

    // Over n characters of one byte that are no breaks.
    pub fn skip_n_non_blank(self, n: u32) -> Self
        requires { Small self × (n ≤ 2 ^ 20) }
        ensures { result ≡ past self n (along_by n self.mark) }
    {
        self.skip_chars(n as usize, n)
    }

    // Over a blank.
    pub fn skip_blank(self) -> Self
        requires { Small self }
        ensures { result ≡ past self 1 (along self.mark) }
    {
        self.skip_chars(1, 1)
    }

    // Over a character of n bytes that is no break.
    pub fn skip_non_blank(self, n: usize) -> Self
        requires { Small self × (n ≤ 4) }
        ensures { result ≡ past self n (along self.mark) }
    {
        self.skip_chars(n, 1)
    }

    // Over a break of n characters.
    pub fn skip_linebreak(self, n: u32) -> Self
        requires { Small self × (n ≤ 2) }
        ensures { result ≡ past self n (new_line n self.mark) }
    {
        let m = Mark {
            index: self.mark.index + n,
            line: self.mark.line + 1,
            col: 0,
        };
        Place {
            at: self.at + n as usize,
            mark: m,
        }
    }

    // Over a byte order mark that is a token.
    pub fn skip_bom(self) -> Self
        requires { Small self }
        ensures { result ≡ past self 3 (over_bom self.mark) }
    {
        let m = Mark {
            index: self.mark.index + 1,
            line: self.mark.line,
            col: self.mark.col,
        };
        Place {
            at: self.at + 3,
            mark: m,
        }
    }
}

// How many characters the break at a place takes: none, where no break stands there. A count as in the definition, since readers move on by it.
#[tactic(auto, using(crate::specs::Lines::breaks))]
pub fn break_length(s: &[u8], at: usize) -> u32
    ensures { result ≡ break_length (chars (drop at s.now)) }
{
    let b = byte(s, at);
    if b == b'\n' {
        return 1;
    }
    if b == b'\r' {
        return if byte(s, at + 1) == b'\n' { 2 } else { 1 };
    }
    0
}

// Past the break, if one stands here.
#[tactic(auto, using(crate::specs::Lines::skip_none, crate::specs::Lines::break_few))]
pub fn skip_break(s: &[u8], p: Place) -> Place
    requires { Stands s.now p }
    ensures { Moves s.now p result (skip_break (view s.now p)) }
{
    let at = p.at;
    let n = break_length(s, at);
    if n == 0 {
        return p;
    }
    p.skip_linebreak(n)
}

// Whether `---` or `...` stands here, at column 0 and before blank, break or end.
#[tactic(auto, using(crate::specs::Lines::markers))]
pub fn is_marker(s: &[u8], p: Place) -> bool
    ensures { result ≡ is_marker p.mark (chars (drop p.at s.now)) }
{
    if p.mark.col != 0 {
        return false;
    }
    let at = p.at;
    let b = byte(s, at);
    if (b == b'-') | (b == b'.') {
        return twice_more(s, at, b);
    }
    false
}

// Whether the character b that stands at a place stands at the next two as well, before blank, break or end.
fn twice_more(s: &[u8], at: usize, b: u8) -> bool
    requires { CharAt s.now at b 1 × (0 < b) × (b < 128) }
    ensures { result ≡ twice_more b (chars (drop at s.now)) }
{
    if (byte(s, at + 1) == b) & (byte(s, at + 2) == b) {
        return is_blank_or_breakz(look(s, at + 3));
    }
    false
}
