// What a lexeme reader answers: a token with the place behind it, or a refusal.
#![tactic(auto)]

ghost use Rattle.std.specs.Prelude.{◌%◌, ◌+◌, ◌^◌, ◌<◌, suc, ◌≡◌, length, replicate};
ghost use Rattle.std.proofs.lemmas.List.Edits.{sets};
ghost use Rattle.yaml_lexeme.specs.Fold.{fold};
ghost use Rattle.reading.specs.Puts.{Puts};
ghost use Rattle.reading.specs.Reading.{Clears};

use chars::mark::Place;
use yaml_lexeme::{Kind, Text, Token};
use yaml_text::{Mark, Refusal};

// A token, with the place where the reading goes on, counted from the reader's own first byte.
#[derive(Clone, Copy)]
pub struct Lexeme {
    pub token: Token,
    pub next: Place,
}

impl Lexeme {
    pub fn new(kind: Kind, start: Mark, end: Mark, next: Place) -> Lexeme
        ensures { result ≡ record { token = record { kind = kind; start = start; end = end }; next = next } }
    {
        let token = Token { kind, start, end };
        Lexeme { token, next }
    }
}

// Texts that were written, up to `count`, where the next byte goes, with the place behind what was read. It counts on where the room is
// full, so it is no length of a slice, and stands beside the room.
#[derive(Clone, Copy)]
pub struct Written {
    pub count: usize,
    pub place: Place,
}

// A text of n bytes behind the bytes used so far.
pub fn text_at(used: u32, n: usize) -> Text
    ensures { result ≡ record { at = used; len = n % 2 ^ 32 } }
{
    Text {
        at: used,
        len: rooms::as_word(n),
    }
}

// Two texts behind the bytes used so far, one right behind the other.
pub fn texts_at(used: u32, one: usize, other: usize) -> (Text, Text)
    requires { used + one % 2 ^ 32 < 2 ^ 32 }
    ensures { (result.0 ≡ record { at = used; len = one % 2 ^ 32 }) × (result.1 ≡ record { at = used + one % 2 ^ 32; len = other % 2 ^ 32 }) }
{
    let first = text_at(used, one);
    let second = text_at(used + first.len, other);
    (first, second)
}

// Zeros in all lent bytes.
pub fn clear(out: &mut [u8])
    ensures { out.new ≡ replicate (length out.old) 0 }
{
    rooms::clear_from(out, 0);
}

// A refusal leaves the lent bytes all zero: what was written before it is cleared here, once for a whole reader.
pub fn clear_refused(r: Result<Lexeme, Refusal>, out: &mut [u8]) -> Result<Lexeme, Refusal>
    ensures { Clears out.old out.new r result }
{
    if r.is_err() {
        clear(out);
    }
    r
}

// Stores k line feeds from n on; where the next byte goes.
pub fn put_breaks(out: &mut [u8], n: usize, k: u32) -> usize
    requires { n < 2 ^ 62 }
    ensures { (out.new ≡ sets out.old n (replicate k 10)) × (result ≡ n + k) }
{
    let k = k as usize;
    for i in 0..k {
        rooms::put(out, n + i, b'\n');
    }
    n + k
}

// Stores what a break and k more become where lines are folded, from n on; where the next byte goes.
pub fn put_fold(out: &mut [u8], n: usize, k: u32) -> usize
    requires { n < 2 ^ 62 }
    ensures { Puts out.old n out.new result (fold (suc k)) }
{
    if k == 0 {
        rooms::put(out, n, b' ');
        return n + 1;
    }
    put_breaks(out, n, k)
}
