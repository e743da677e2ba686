// K3: the way to the next token, and which lexeme stands there.
#![tactic(auto)]

pub mod advance;
pub mod choice;
