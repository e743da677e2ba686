// Vectors: lines that begin with a text in hexadecimal.
#![tactic(auto)]

mod write;

ghost use Rattle.std.specs.Prelude.{◌≡◌, ◌*◌, ◌+◌, ◌<◌, ◌^◌, ◌≤◌, min, IfOk, drop, length};
ghost use Rattle.yaml_lexeme.specs.Record.{record_words};
ghost use Rattle.vectors.specs.Hex.{ByteOf, DigitOf, ReadHex};
ghost use Rattle.std.specs.List.{prefix_len};
ghost use Rattle.vectors.specs.Line.{in_line, line_length};

use records::RECORD_WORDS;
use std::io;
use std::io::Read;
pub use write::{behind, put_accepted, put_head, put_hex, put_refused};

// How many bytes stand before the first line feed, or before the end.
fn line_len(s: &[u8]) -> usize
    ensures { result ≡ prefix_len in_line s.now }
{
    s.iter().take_while(|b| **b != b'\n').count()
}

// Where the line that begins at `at` ends.
pub fn line_end(s: &[u8], at: usize) -> usize
    ensures end { result ≡ at + line_length (drop at s.now) }
    ensures within { at ≤ length s.now → result ≤ length s.now }
{
    at + line_len(&s[at.min(s.len())..])
}

// Reads standard input into a room, until it is full or the input ends; how many bytes were read. (No `for`: how much a read gives is not known before.)
pub fn read_input(rt: &HostRuntime, room: &mut [u8]) -> io::Result<usize>
    ensures { IfOk result (λ n. n ≤ length room.new) }
{
    let mut input = rt.stdin();
    let mut n = 0;
    while n < room.len() {
        let k = input.read(&mut room[n..])?;
        if k == 0 {
            break;
        }
        n += k;
    }
    Ok(n)
}

// The value of a hexadecimal digit.
fn digit(b: u8) -> Option<u8>
    ensures { DigitOf b result }
{
    match b {
        b'0'..=b'9' => Some(b - b'0'),
        b'a'..=b'f' => Some(b - (b'a' - 10)),
        _ => None,
    }
}

// The byte that two digits stand for.
fn byte_of(high: u8, low: u8) -> Option<u8>
    ensures { ByteOf high low result }
{
    Some(digit(high)? * 16 + digit(low)?)
}

// Stores the bytes that the digits at the start of a line stand for, as far as there is room; how many are stored.
pub fn read_hex(line: &[u8], out: &mut [u8]) -> usize
    ensures { ReadHex line.now out.old out.new result }
{
    for n in 0..out.len() {
        if line.len() < 2 * n + 2 {
            return n;
        }
        let Some(b) = byte_of(line[2 * n], line[2 * n + 1]) else {
            return n;
        };
        out[n] = b;
    }
    out.len()
}

// The words that demand 3 asks for a text of n bytes, or as many as there are.
pub fn enough_words(n: usize, most: usize) -> usize
    requires { n < 2 ^ 32 }
    ensures { result ≡ min ((2 * n + 3) * record_words) most }
{
    most.min((2 * n + 3) * RECORD_WORDS)
}
