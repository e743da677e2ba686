// The stacks that a step is lent, one array: indent entries (K4, K6), then frames: candidates with their flow levels (K2).
#![tactic(auto)]

pub mod frame;
pub mod indent;

// The words of the entries, one each.
const ENTRIES: usize = 255;

// The words of a frame. The frame of a flow level begins at ENTRIES + level * FRAME_WORDS.
const FRAME_WORDS: usize = 6;

// All entries, and the frames of the levels 0 to 255.
pub const STACK_WORDS: usize = ENTRIES + 256 * FRAME_WORDS;
