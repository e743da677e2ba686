// The types of tokens, which the definition in specs/ and the code above it share. No code.
#![tactic(auto)]

use yaml_text::Mark;

// The styles of scalars, in the crate's order, by their numbers in a record.
#[derive(Clone, Copy)]
pub enum Style {
    Plain = 1,
    SingleQuoted,
    DoubleQuoted,
    Literal,
    Folded,
}

// What stands before a character of a gap (K1).
#[derive(Clone, Copy)]
pub enum Before {
    // This line's blanks from column 0, no tab among them.
    Leading,
    // The same with a tab: the first stands there.
    Tabbed(Mark),
    // A blank, behind text of this line.
    Spaced,
    // Text of this line.
    AfterText,
    InComment,
}

// What a letter behind a backslash is.
#[derive(Clone, Copy)]
pub enum Named {
    // It stands for one character.
    Stands(u32),
    // So many hexadecimal digits follow it.
    Digits(u32),
    Unknown,
}

// What becomes of the line breaks behind a block scalar.
#[derive(Clone, Copy)]
pub enum Chomping {
    Strip,
    Clip,
    Keep,
}

// A text among the decoded bytes.
#[derive(Clone, Copy)]
pub struct Text {
    pub at: u32,
    pub len: u32,
}

// The kinds of tokens, in the crate's order, with where their texts lie.
#[derive(Clone, Copy)]
pub enum Kind {
    StreamStart,
    StreamEnd,
    VersionDirective { major: u32, minor: u32 },
    TagDirective { handle: Text, prefix: Text },
    DocumentStart,
    DocumentEnd,
    ByteOrderMark,
    BlockSequenceStart,
    BlockMappingStart,
    BlockEnd,
    FlowSequenceStart,
    FlowSequenceEnd,
    FlowMappingStart,
    FlowMappingEnd,
    BlockEntry,
    FlowEntry,
    Key,
    Value,
    Alias(Text),
    Anchor(Text),
    Tag { handle: Text, suffix: Text },
    Scalar { style: Style, text: Text },
    ReservedDirective { name: Text, parameters: Text },
}

// A token as code holds it.
#[derive(Clone, Copy)]
pub struct Token {
    pub kind: Kind,
    pub start: Mark,
    pub end: Mark,
}
