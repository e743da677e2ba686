// What a terminal shows of a text: its characters, and the line in which a place stands, with a caret under it.
#![tactic(auto)]

pub mod line;
pub mod show;

use std::fmt::InlineText;

// A message for a terminal. One that is too long is cut.
pub type Message = InlineText<8_192>;
