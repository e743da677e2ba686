// The line of a vector, put together in a room.
ghost use Rattle.std.specs.Prelude.{◌≡◌, ◌*◌, ◌+◌, ◌<◌, ◌^◌, ◌≤◌, ◌∷◌, length};
ghost use Rattle.io.specs.Digits.{hex_digit_ascii};
ghost use Rattle.yaml_lexeme.specs.Record.{record_words};
ghost use Rattle.printing.specs.Listing.{mark_numbers};
ghost use Rattle.printing.specs.Written.{Written};
ghost use Rattle.vectors.specs.Vector.{accepted_text, head_text, hex_text, refused_text, row_end, rows_text};

use chars::pick::pick;
use printing::put_numbers;
use records::RECORD_WORDS;
use rooms::{copy, put};
use yaml_text::Refusal;

// A digit below 16.
fn figure(n: u8) -> u8
    requires { n < 16 }
    ensures { result ≡ hex_digit_ascii n }
{
    if n < 10 { b'0' + n } else { b'a' - 10 + n }
}

// Two digits for each byte, from `at` on; where the next goes.
pub fn put_hex(out: &mut [u8], at: usize, bytes: &[u8]) -> usize
    requires { (at < 2 ^ 60) × (length bytes.now < 2 ^ 60) }
    ensures written { Written out.old at (hex_text bytes.now) out.new result }
    ensures value { result ≡ at + 2 * length bytes.now }
{
    let mut next = at;
    for b in bytes {
        put(out, next, figure(*b / 16));
        put(out, next + 1, figure(*b % 16));
        next += 2;
    }
    next
}

// Bytes as they are, from `at` on; where the next goes.
fn put_text(out: &mut [u8], at: usize, text: &[u8]) -> usize
    requires { (at < 2 ^ 60) × (length text.now < 2 ^ 60) }
    ensures { Written out.old at text.now out.new result }
{
    copy(out, at, text);
    at + text.len()
}

// The text of a vector, at the start; where the answer goes.
pub fn put_head(out: &mut [u8], text: &[u8]) -> usize
    requires { length text.now < 2 ^ 32 }
    ensures written { Written out.old 0 (head_text text.now) out.new result }
    ensures value { result ≡ 2 * length text.now + 4 }
{
    let n = put_hex(out, 0, text);
    put_text(out, n, b" => ")
}

// The byte behind a record that so many follow.
pub fn behind(left: u32) -> u8
    ensures { result ≡ row_end left }
{
    pick(left == 0, b'|', b';')
}

// The words of t records, from `at` on; where the next goes.
fn put_rows(out: &mut [u8], at: usize, words: &[u32], t: u32) -> usize
    requires { (at < 2 ^ 59) × (t * record_words ≤ length words.now) }
    ensures written { Written out.old at (rows_text t words.now) out.new result }
    ensures upper_bound { result ≤ at + 132 * t }
{
    let mut next = at;
    for n in 0..t {
        let from = n as usize * RECORD_WORDS;
        let record = &words[from..from + RECORD_WORDS];
        next = put_numbers(out, next, record, b' ', behind(t - n - 1));
    }
    next
}

// T, D, the records and the bytes, from `at` on; where the next goes.
pub fn put_accepted(out: &mut [u8], at: usize, t: u32, d: u32, words: &[u32], bytes: &[u8]) -> usize
    requires { (at < 2 ^ 40) × (t * record_words ≤ length words.now) × (d ≤ length bytes.now) }
    ensures written { Written out.old at (accepted_text t d words.now bytes.now) out.new result }
    ensures upper_bound { result ≤ at + 25 + 132 * t + 2 * d }
{
    let a = put_text(out, at, b"A ");
    let b = put_numbers(out, a, &[t, d], b' ', b'|');
    let c = put_rows(out, b, words, t);
    let e = put_hex(out, c, &bytes[..d as usize]);
    put_text(out, e, b"\n")
}

// A refusal's number and mark, from `at` on; where the next goes.
pub fn put_refused(out: &mut [u8], at: usize, f: Refusal) -> usize
    requires { at < 2 ^ 40 }
    ensures written { Written out.old at (refused_text (f.number ∷ mark_numbers f.mark)) out.new result }
    ensures upper_bound { result ≤ at + 46 }
{
    let m = f.mark;
    let n = put_text(out, at, b"R ");
    put_numbers(out, n, &[f.number, m.index, m.line, m.col], b' ', b'\n')
}
