// Words for 42 and 47, which name a bracket.
use showing::Message;
use std::fmt;
use std::fmt::{Display, Write};
use utf8::byte;
use yaml_text::Mark;

// The two kinds of brackets.
#[derive(Clone, Copy, PartialEq, Eq)]
pub enum Bracket {
    Square,
    Curly,
}

impl Bracket {
    fn opening(self) -> &'static str {
        match self {
            Bracket::Square => "'['",
            Bracket::Curly => "'{'",
        }
    }

    fn closing(self) -> &'static str {
        match self {
            Bracket::Square => "']'",
            Bracket::Curly => "'}'",
        }
    }

    fn other(self) -> Bracket {
        match self {
            Bracket::Square => Bracket::Curly,
            Bracket::Curly => Bracket::Square,
        }
    }
}

// An open bracket, and the mark of it.
#[derive(Clone, Copy)]
pub struct Open {
    pub bracket: Bracket,
    pub mark: Mark,
}

impl Display for Open {
    fn fmt<W: fmt::Write>(&self, f: &mut fmt::Formatter<W>) -> fmt::Result {
        let col = self.mark.col as u64 + 1;
        write!(
            f,
            "{} of {}:{}",
            self.bracket.opening(),
            self.mark.line,
            col
        )
    }
}

// Words about an open bracket, where it is known, up to what closes it.
fn write_adding(
    out: &mut Message,
    before: &str,
    open: Option<Open>,
    between: &str,
    behind: &str,
) -> fmt::Result {
    match open {
        Some(o) => write!(
            out,
            "{}{}{}{}{}",
            before,
            o,
            between,
            o.bracket.closing(),
            behind
        ),
        None => write!(out, "{}a bracket{}']' or '}}'{}", before, between, behind),
    }
}

// At the end of the text.
fn write_unclosed(out: &mut Message, open: Option<Open>) -> fmt::Result {
    let before = if open.is_some() { "this " } else { "" };
    write_adding(out, before, open, " is never closed. Add ", "")
}

// At a closing bracket, where none is known that is open.
fn write_needless(out: &mut Message, b: Bracket) -> fmt::Result {
    write!(
        out,
        "this {} closes no bracket that is open. Remove it, or write {} if one of the other kind is open",
        b.closing(),
        b.other().closing()
    )
}

// At a closing bracket. Where the latest that is known to be open is of its kind, so that one of the other kind was opened behind that; and where that is of the
// other kind.
fn write_closing(out: &mut Message, b: Bracket, open: Open) -> fmt::Result {
    let closing = b.closing();
    let other = b.other().closing();
    if open.bracket == b {
        return write!(
            out,
            "this {} comes before the {} of a bracket that is still open. Write that before it",
            closing, other
        );
    }
    write!(
        out,
        "{} is still open, and {} does not close it. Write {} instead, or before it",
        open, closing, other
    )
}

// Words for 42.
pub(crate) fn write_too_far_left(out: &mut Message, open: Option<Open>) -> fmt::Result {
    write_adding(
        out,
        "this line begins too far left, and ",
        open,
        " is still open. Put more spaces before the line, or add ",
        " before it",
    )
}

fn closed_by(text: &[u8], place: usize) -> Option<Bracket> {
    match byte(text, place) {
        b']' => Some(Bracket::Square),
        b'}' => Some(Bracket::Curly),
        _ => None,
    }
}

// Words for 47 at a place: the end of the text, a closing bracket or a document marker.
pub(crate) fn write_bracket(
    out: &mut Message,
    text: &[u8],
    place: usize,
    open: Option<Open>,
) -> fmt::Result {
    if text.len() <= place {
        return write_unclosed(out, open);
    }
    match (closed_by(text, place), open) {
        (Some(b), Some(o)) => write_closing(out, b, o),
        (Some(b), None) => write_needless(out, b),
        (None, _) => write_adding(
            out,
            "",
            open,
            " is still open at this line. Add ",
            " before it",
        ),
    }
}
