// The line of a token, `LINE:COLUMN Kind`, then the style of a scalar, and texts in quotes. Lines go to standard output, through a buffer.
#![tactic(auto)]

pub mod kind;
pub mod quoted;

use outlets::buffered::Buffered;

// Standard output, with 8,192 bytes that may wait.
pub type Output<'a> = Buffered<'a, 8_192>;
