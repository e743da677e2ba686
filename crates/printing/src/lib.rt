// Numbers as text, and the lines of records.
#![tactic(auto)]

ghost use Rattle.std.specs.Prelude.{◌≡◌, ◌*◌, ◌+◌, ◌<◌, ◌^◌, ◌≤◌, drop, length, take};
ghost use Rattle.yaml_lexeme.specs.Record.{record_words};
ghost use Rattle.printing.specs.Lines.{lines_text, number_text, numbers_line};
ghost use Rattle.printing.specs.Listing.{listed, token_lines};
ghost use Rattle.printing.specs.Written.{Written};

use chars::pick::pick;
use records::RECORD_WORDS;
use rooms::{copy, put};

const STANDARD_OUTPUT: i32 = 1;

// A number in decimal from `at` on, and a byte behind it; where the next goes.
fn put_number(out: &mut [u8], at: usize, v: u32, end: u8) -> usize
    requires { at < 2 ^ 62 }
    ensures { Written out.old at (number_text v end) out.new result }
{
    let mut space = [0u8; 20];
    let n = io::decimal(v as u64, &mut space);
    copy(out, at, &space[..n]);
    put(out, at + n, end);
    at + n + 1
}

// Numbers from `at` on, with a byte between and another at the end; where the next goes.
pub fn put_numbers(out: &mut [u8], at: usize, numbers: &[u32], between: u8, end: u8) -> usize
    requires { (at < 2 ^ 60) × (length numbers.now < 2 ^ 32) }
    ensures written { Written out.old at (numbers_line between end numbers.now) out.new result }
    ensures upper_bound { result ≤ at + 11 * length numbers.now }
{
    let mut next = at;
    for (i, n) in numbers.iter().enumerate() {
        let left = numbers.len() - i - 1;
        next = put_number(out, next, *n, pick(left == 0, end, between));
    }
    next
}

// Writes numbers on standard output, with blanks between and a byte at the end; how many bytes that are.
pub fn say_numbers(numbers: &[u32], end: u8) -> usize
    requires { length numbers.now ≤ record_words }
    ensures { result ≡ length (numbers_line 32 end numbers.now) }
{
    let mut space = [0u8; 11 * RECORD_WORDS];
    let n = put_numbers(&mut space, 0, numbers, b' ', end);
    io::write_all(STANDARD_OUTPUT, &space[..n]);
    n
}

// Kind, six mark numbers, style, words 9 and 11 (counted from 1) of the record at a place.
fn listed_words(words: &[u32], at: usize) -> [u32; 10]
    requires { at + record_words ≤ length words.now }
    ensures { result ≡ listed (take record_words (drop at words.now)) }
{
    [
        words[at],
        words[at + 1],
        words[at + 2],
        words[at + 3],
        words[at + 4],
        words[at + 5],
        words[at + 6],
        words[at + 11],
        words[at + 8],
        words[at + 10],
    ]
}

// A line for each of t records, from `at` on; where the next goes.
pub fn put_records(out: &mut [u8], at: usize, words: &[u32], t: u32) -> usize
    requires { (at < 2 ^ 32) × (t * record_words ≤ length words.now) }
    ensures written { Written out.old at (lines_text (token_lines t words.now)) out.new result }
    ensures upper_bound { result ≤ at + 110 * t }
{
    let mut next = at;
    for n in 0..t {
        let numbers = listed_words(words, n as usize * RECORD_WORDS);
        next = put_numbers(out, next, &numbers, b' ', b'\n');
    }
    next
}
