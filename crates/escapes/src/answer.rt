// What an escape is read as.
use chars::mark::Place;

// A character with the place behind its escape.
#[derive(Clone, Copy)]
pub struct Escaped {
    pub code: u32,
    pub next: Place,
}
