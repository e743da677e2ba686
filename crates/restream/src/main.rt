// Reads lines `HEX words=W bytes=B`. Writes each again, with what taking the tokens of the text one at a time gives in rooms of W words and B bytes; or, where
// the line goes on behind that, with the seeds and the closing record of the job that the text is.
#![tactic(auto)]

mod handed;
mod head;
mod taken;

ghost use Rattle.std.specs.Prelude.{◌<◌, ◌^◌, ◌≤◌, length};

use handed::say_job;
use head::{number_end, read_number};
use records::RECORD_WORDS;
use std::io;
use stream::LEAST_RECORDS;
use taken::say_taken;
use vectors::{line_end, read_hex, read_input};

// The longest text, and the most bytes that are lent to it.
const MOST_TEXT: usize = 10_752;

const MOST_BYTES: usize = 16_128;

// What a line says: how many bytes the text has, how many words and bytes are lent to it, and whether it is taken as a job.
#[derive(Clone, Copy)]
struct Asked {
    size: usize,
    words: usize,
    bytes: usize,
    job: bool,
}

// Stores the text of a line. 7 bytes stand before each number, ` words=` and ` bytes=`. No more is lent than there is.
fn read_asked(line: &[u8], text: &mut [u8], words: usize, bytes: usize) -> Asked
    requires { length text.old ≤ 10_752 }
    ensures { (result.size ≤ length text.new) × (result.words ≤ words) × (result.bytes ≤ bytes) }
{
    let n = read_hex(line, text);
    let from = 2 * n + 7;
    let to = number_end(line, from);
    Asked {
        size: n,
        words: (read_number(line, from) as usize).min(words),
        bytes: (read_number(line, to + 7) as usize).min(bytes),
        job: number_end(line, to + 7) < line.len(),
    }
}

// What taking the tokens of a text gives, or the job that it is.
fn say_text(
    rt: &HostRuntime,
    text: &[u8],
    words: &mut [u32],
    bytes: &mut [u8],
    job: bool,
) -> io::Result<()>
    requires { (length text.now < 2 ^ 30) × (length bytes.old ≤ 16_128) }
{
    if job {
        say_job(rt, text, words, bytes)
    } else {
        say_taken(rt, text, words, bytes)
    }
}

fn restream_line(
    rt: &HostRuntime,
    line: &[u8],
    words: &mut [u32],
    bytes: &mut [u8],
) -> io::Result<()>
    requires { length bytes.old ≤ 16_128 }
{
    let mut space = [0u8; MOST_TEXT];
    let h = read_asked(line, &mut space, words.len(), bytes.len());
    let text = &space[..h.size];
    rt.write_all(line)?;
    rt.write_all(b" => ")?;
    say_text(
        rt,
        text,
        &mut words[..h.words],
        &mut bytes[..h.bytes],
        h.job,
    )
}

// The rooms hold what the text before left there.
fn restream_all(rt: &HostRuntime, s: &[u8], words: &mut [u32], bytes: &mut [u8]) -> io::Result<()>
    requires { length bytes.old ≤ 16_128 }
{
    for line in s.split_inclusive(|b| *b == b'\n') {
        // Only its last byte can be a line feed.
        let end = line_end(line, line.len().saturating_sub(1));
        restream_line(rt, &line[..end], words, bytes)?;
    }
    Ok(())
}

// The lines go into a room of their own, which holds the whole file.
fn restream_input(
    rt: &HostRuntime,
    space: &mut [u8],
    words: &mut [u32],
    bytes: &mut [u8],
) -> io::Result<()>
    requires { length bytes.old ≤ 16_128 }
{
    let n = read_input(rt, space)?;
    restream_all(rt, &space[..n], words, bytes)
}

fn main(rt: HostRuntime) -> io::Result<()> {
    let mut space = [0u8; 655360];
    let mut words = [7u32; LEAST_RECORDS * RECORD_WORDS];
    let mut bytes = [7u8; MOST_BYTES];
    restream_input(&rt, &mut space, &mut words, &mut bytes)
}
