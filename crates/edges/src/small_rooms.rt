// Each text of the vectors in rooms that are too small.
ghost use Rattle.std.specs.Prelude.{◌<◌, ◌^◌, ◌≤◌, length};

use printing::say_numbers;
use records::RECORD_WORDS;
use scanner::scan;
use std::io;
use tokenglade::numbers_of;
use vectors::{enough_words, read_hex, read_input};

// How often a room was lent, how often the answer was the one expected, and how many words and bytes were not zero then.
#[derive(Clone, Copy)]
struct Tally {
    lent: u32,
    as_expected: u32,
    words: u32,
    bytes: u32,
}

// A room that is too small for a text that is accepted.
#[derive(Clone, Copy)]
enum Small {
    // Neither words nor bytes.
    Nothing,
    // Bytes enough, and no words.
    NoWords,
    // A word less than the records take.
    RecordLess,
    // A byte less than the texts take.
    ByteLess,
}

// What is lent, and the refusal that is expected.
#[derive(Clone, Copy)]
struct Loan {
    words: usize,
    bytes: usize,
    number: u32,
}

// So many more, up to the largest number.
fn more(n: u32, by: usize) -> u32 {
    n.saturating_add(u32::try_from(by).unwrap_or(u32::MAX))
}

// What is expected in a room that is too small: a refusal at the origin, with T and D. A text that is refused is refused as before.
fn expected(number: u32, whole: [u32; 6]) -> [u32; 6] {
    if whole[0] == 0 {
        [number, 0, 1, 0, whole[4], whole[5]]
    } else {
        whole
    }
}

fn lent(room: Small, t: u32, d: u32) -> Loan {
    let words = t as usize * RECORD_WORDS;
    let bytes = d as usize;
    match room {
        Small::Nothing => Loan {
            words: 0,
            bytes: 0,
            number: 4,
        },
        Small::NoWords => Loan {
            words: 0,
            bytes,
            number: 4,
        },
        Small::RecordLess => Loan {
            words: words.saturating_sub(1),
            bytes,
            number: 4,
        },
        Small::ByteLess => Loan {
            words,
            bytes: bytes.saturating_sub(1),
            number: 5,
        },
    }
}

// A text that is refused is lent nothing, and one without text is lent no byte less.
fn is_lent(room: Small, whole: [u32; 6]) -> bool {
    match room {
        Small::Nothing => true,
        Small::NoWords => whole[0] == 0,
        Small::RecordLess => whole[0] == 0,
        Small::ByteLess => whole[0] == 0 && 0 < whole[5],
    }
}

fn refuse_in(
    text: &[u8],
    words: &mut [u32],
    bytes: &mut [u8],
    expected: [u32; 6],
    n: Tally,
) -> Tally {
    let a = scan(text, words, bytes);
    Tally {
        lent: more(n.lent, 1),
        as_expected: more(n.as_expected, (numbers_of(a) == expected) as usize),
        words: more(n.words, words.iter().filter(|w| **w != 0).count()),
        bytes: more(n.bytes, bytes.iter().filter(|b| **b != 0).count()),
    }
}

// Scanned in words that are enough, then in the room that is too small.
fn in_small_room(text: &[u8], words: &mut [u32], bytes: &mut [u8], room: Small, n: Tally) -> Tally
    requires { length text.now < 2 ^ 32 }
{
    let enough = enough_words(text.len(), words.len());
    let whole = numbers_of(scan(text, &mut words[..enough], bytes));
    if is_lent(room, whole) {
        let r = lent(room, whole[4], whole[5]);
        let w = r.words.min(words.len());
        let b = r.bytes.min(bytes.len());
        return refuse_in(
            text,
            &mut words[..w],
            &mut bytes[..b],
            expected(r.number, whole),
            n,
        );
    }
    n
}

fn line_in_small_room(
    line: &[u8],
    words: &mut [u32],
    bytes: &mut [u8],
    room: Small,
    n: Tally,
) -> Tally {
    let mut space = [0u8; 40960];
    let k = read_hex(line, &mut space);
    in_small_room(&space[..k], words, bytes, room, n)
}

fn in_small_rooms(s: &[u8], words: &mut [u32], bytes: &mut [u8], room: Small) -> Tally {
    let mut n = Tally {
        lent: 0,
        as_expected: 0,
        words: 0,
        bytes: 0,
    };
    // A line feed is no digit, so that reading ends at it.
    for line in s.split_inclusive(|b| *b == b'\n') {
        n = line_in_small_room(line, words, bytes, room, n);
    }
    n
}

// Rooms hold what the text before left there.
fn say_room(rt: &HostRuntime, what: &[u8], s: &[u8], room: Small) -> io::Result<()> {
    let mut words = [7u32; 8195 * RECORD_WORDS];
    let mut bytes = [7u8; 6144];
    let n = in_small_rooms(s, &mut words, &mut bytes, room);
    rt.write_all(what)?;
    say_numbers(&[n.lent, n.as_expected, n.words, n.bytes], b'\n');
    Ok(())
}

// The vectors come from standard input.
pub(crate) fn say_rooms(rt: &HostRuntime, space: &mut [u8]) -> io::Result<()> {
    let n = read_input(rt, space)?;
    let s = &space[..n];
    rt.write_all(b"rooms: lent, answered as expected, words and bytes not zero\n")?;
    say_room(rt, b"nothing: ", s, Small::Nothing)?;
    say_room(rt, b"no words: ", s, Small::NoWords)?;
    say_room(rt, b"a record less: ", s, Small::RecordLess)?;
    say_room(rt, b"a byte less: ", s, Small::ByteLess)
}
