// The bracket that is open where a text is refused, found by taking the tokens of the text once more.
ghost use Rattle.std.specs.Prelude.{◌≤◌};

use crate::count::enough_calls;
use chars::mark::origin;
use driver::held::HELD_WORDS;
use records::RECORD_WORDS;
use records::found::token_of;
use stream::{Next, next_token};
use wording::bracket::{Bracket, Open};
use yaml_lexeme::{Kind, Token};

// No more brackets are ever open.
const MOST_OPEN: usize = 255;

// The brackets that are open: the first `depth`, innermost last.
#[derive(Clone, Copy)]
struct Opens {
    brackets: [Open; MOST_OPEN],
    depth: usize,
    ghost within: { depth ≤ 255 },
}

impl Opens {
    fn new() -> Opens {
        let none = Open {
            bracket: Bracket::Square,
            mark: origin(),
        };
        Opens {
            brackets: [none; MOST_OPEN],
            depth: 0,
        }
    }

    fn open(&mut self, bracket: Bracket, t: Token) {
        if self.depth < MOST_OPEN {
            self.brackets[self.depth] = Open {
                bracket,
                mark: t.start,
            };
            self.depth += 1;
        }
    }

    fn close(&mut self) {
        self.depth = self.depth.saturating_sub(1);
    }

    // Behind a token. A mapping of one pair has no bracket: its start and its end take up no text.
    fn take(&mut self, t: Token) {
        if t.start.index == t.end.index {
            return;
        }
        match t.kind {
            Kind::FlowSequenceStart => self.open(Bracket::Square, t),
            Kind::FlowMappingStart => self.open(Bracket::Curly, t),
            Kind::FlowSequenceEnd | Kind::FlowMappingEnd => self.close(),
            _ => {}
        }
    }

    fn latest(&self) -> Option<Open> {
        if self.depth == 0 {
            return None;
        }
        Some(self.brackets[self.depth - 1])
    }
}

// The latest bracket that is still open among the tokens that are given. Tokens that wait are not seen.
pub(crate) fn latest_open(text: &[u8], words: &mut [u32], bytes: &mut [u8]) -> Option<Open> {
    let mut opens = Opens::new();
    let mut held = [0u32; HELD_WORDS];
    let mut token = [0u32; RECORD_WORDS];
    for _ in 0..enough_calls(text) {
        let a = next_token(&mut held, text, words, bytes, &mut token);
        let Ok(Next::Token) = a else {
            break;
        };
        if let Some(t) = token_of(&token, 0) {
            opens.take(t);
        }
    }
    opens.latest()
}
