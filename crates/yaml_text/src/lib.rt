// The types of characters and marks, which the definition in specs/ and the code above it share. No code.
#![tactic(auto)]

// What stands at a place of a byte list.
#[derive(Clone, Copy)]
pub enum Decoded {
    // A character: its code point, and how many bytes it takes.
    Char { code: u32, len: usize },
    // Bytes that begin no well-formed character.
    Ill,
    // Nothing.
    End,
}

// Where a character stands, counted in characters.
#[derive(Clone, Copy)]
pub struct Mark {
    pub index: u32,
    pub line: u32,
    pub col: u32,
}

// A refusal: its number in the table of 01, and its mark.
#[derive(Clone, Copy)]
pub struct Refusal {
    pub number: u32,
    pub mark: Mark,
}
