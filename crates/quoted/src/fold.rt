// Blanks and breaks inside a quoted scalar, which are kept back until text follows (YAML 1.2.2, 6.5).
ghost use Rattle.std.specs.Prelude.{◌≡◌, ◌+◌, ◌<◌, ◌^◌, ◌≤◌, length};
ghost use Rattle.quoted.specs.Modes.{BlanksKept, PutsKept, behind_break, blank_mode, break_mode, held_against, owed};

use reading::{put_breaks, put_fold};
use rooms::copy;

// What came right before a character of the scalar.
#[derive(Clone, Copy)]
pub enum Mode {
    // A character that is text.
    Chars,
    // Blanks from this byte on, which are text if no break follows.
    Blanks { from: usize },
    // A break, and so many more after it.
    Folded { more: u32 },
    // An escaped break, and nothing after it.
    Escaped,
    // An escaped break, so many breaks after it, and maybe blanks.
    Joined { breaks: u32 },
}

impl Mode {
    // Behind a blank at a place.
    #[tactic(auto, unfolding(crate::specs::Modes::blank_mode))]
    pub fn after_blank(self, at: usize) -> Mode
        ensures { result ≡ blank_mode at self }
    {
        match self {
            Mode::Chars => Mode::Blanks { from: at },
            Mode::Escaped => Mode::Joined { breaks: 0 },
            _ => self,
        }
    }

    // Behind a break: blanks before it go.
    #[tactic(auto, unfolding(crate::specs::Modes::break_mode))]
    pub fn after_break(self) -> Mode
        requires { owed 0 self < 2 ^ 31 }
        ensures { result ≡ break_mode self }
    {
        match self {
            Mode::Chars | Mode::Blanks { from: _ } => Mode::Folded { more: 0 },
            Mode::Folded { more } => Mode::Folded { more: more + 1 },
            Mode::Escaped => Mode::Joined { breaks: 1 },
            Mode::Joined { breaks } => Mode::Joined { breaks: breaks + 1 },
        }
    }

    // Whether a break came before, and no text since.
    pub fn is_broken(self) -> bool
        ensures { result ≡ behind_break self }
    {
        !matches!(self, Mode::Chars | Mode::Blanks { from: _ })
    }

    // Whether text here is held against a document marker and the indent. quote: it is the closing quote.
    pub fn is_checked(self, quote: bool) -> bool
        ensures { result ≡ held_against self quote }
    {
        match self {
            Mode::Chars => false,
            Mode::Escaped => !quote,
            _ => true,
        }
    }
}

// Stores what blanks and breaks become before the text at a place, from n on; an escaped break is nothing. Where the next byte goes.
pub fn put_kept(text: &[u8], at: usize, mode: Mode, n: usize, out: &mut [u8]) -> usize
    requires { BlanksKept text.now at mode × (at ≤ length text.now) × (n + owed at mode < 2 ^ 62) }
    ensures { PutsKept text.now at mode n out.old out.new result }
{
    match mode {
        Mode::Chars | Mode::Escaped => n,
        Mode::Blanks { from } => {
            copy(out, n, &text[from..at]);
            n + (at - from)
        }
        Mode::Folded { more } => put_fold(out, n, more),
        Mode::Joined { breaks } => put_breaks(out, n, breaks),
    }
}
