// The types of the scan, which the definition in specs/ and the code above it share. No code.
#![tactic(auto)]

use yaml_text::Mark;

// What 01 limits (1, 28, 48): bytes, flow levels, indent entries.
#[derive(Clone, Copy)]
pub struct Limits {
    pub bytes: usize,
    pub levels: usize,
    pub entries: usize,
}

// A simple key's candidate (K2).
#[derive(Clone, Copy)]
pub enum Candidate {
    Absent,
    Possible {
        required: bool,
        token_number: u32,
        mark: Mark,
    },
}

// A flow level.
#[derive(Clone, Copy)]
pub struct Level {
    // Opened by '['.
    pub sequence: bool,
    // ':' and '?' came in this entry.
    pub colon: bool,
    pub question: bool,
    // A FlowMappingStart was put in, which waits for its end (K5).
    pub implicit: bool,
}

// What stands at the place of a state (K3).
#[derive(Clone, Copy)]
pub enum Choice {
    AtEnd,
    AtDirective,
    AtByteOrderMark,
    BelowIndent,
    Stray,
    // `---`, not `...`.
    AtMarker { starts: bool },
    // '[', not '{'.
    Opens { sequence: bool },
    // ']', not '}'.
    Closes { sequence: bool },
    AtComma,
    AtDash,
    AtQuestion,
    AtColon,
    AtTag,
    AtPlain,
    // An alias, not an anchor.
    AtAnchor { alias: bool },
    // '|', not '>'.
    AtBlock { literal: bool },
    // Single, not double.
    AtQuoted { single: bool },
}
