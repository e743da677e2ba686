// What waits where tokens are given one at a time; and laws of the stream's code.
#![tactic(auto)]

// The first token that can't be given yet.
#[derive(Clone, Copy)]
pub struct Pending {
    // Its number; where none waits, that of the next token.
    pub number: u32,
    // The flow level whose candidate it may be.
    pub level: usize,
    // How many tokens were put in before others up to there.
    pub put_in: u32,
}
