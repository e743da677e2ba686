// The lines of the seeds of a job, and how far a long job is.
#![tactic(auto)]

pub mod progress;

use outlets::buffered::Buffered;
use std::io::Error;

// Where the lines of seeds go: 65,536 bytes may wait.
pub type Lines<'a> = Buffered<'a, 65_536>;

// The longest line.
const LINE: usize = 11;

// A line, which is written whole. What waits is written where the longest would not fit.
pub fn put_seed(to: &mut Lines, value: u32) -> Result<(), Error> {
    let mut space = [0u8; 20];
    // It has at most ten digits.
    let n = io::decimal(value as u64, &mut space).min(LINE - 1);
    space[n] = b'\n';
    to.make_room(LINE)?;
    to.put(&space[..n + 1])
}
