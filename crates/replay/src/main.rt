// Reads the vectors: lines `HEX => answer`. Writes each text again, with the answer that the entry gives.
#![tactic(auto)]

ghost use Rattle.std.specs.Prelude.{◌<◌, ◌^◌, ◌≤◌, length};
ghost use Rattle.printing.specs.Written.{Written};
ghost use Rattle.vectors.specs.Vector.{vector_line};
ghost use Rattle.replay.specs.Replay.{line_again, longest};

use records::RECORD_WORDS;
use scanner::scan;
use std::io;
use vectors::{enough_words, put_accepted, put_head, put_refused, read_hex, read_input};

// The line of a text; how long it is.
fn put_vector(out: &mut [u8], text: &[u8], words: &mut [u32], bytes: &mut [u8]) -> usize
    requires { length text.now < 2 ^ 32 }
    ensures written { Written out.old 0 (vector_line text.now (length words.old) (length bytes.old)) out.new result }
    ensures upper_bound { result ≤ longest (length text.now) (length words.old) (length bytes.old) }
{
    let n = put_head(out, text);
    match scan(text, words, bytes) {
        Ok(sizes) => put_accepted(out, n, sizes.tokens, sizes.bytes, words, bytes),
        Err(r) => put_refused(out, n, r.refusal),
    }
}

// The line of the text that a line begins with; how long it is.
fn put_line(out: &mut [u8], line: &[u8], words: &mut [u32], bytes: &mut [u8]) -> usize
    ensures written { Written out.old 0 (line_again line.now (length words.old) (length bytes.old)) out.new result }
    ensures upper_bound { result ≤ longest 40_960 (length words.old) (length bytes.old) }
{
    let mut space = [0u8; 40960];
    let n = read_hex(line, &mut space);
    let room = enough_words(n, words.len());
    put_vector(out, &space[..n], &mut words[..room], bytes)
}

fn replay_line(
    rt: &HostRuntime,
    line: &[u8],
    words: &mut [u32],
    bytes: &mut [u8],
    out: &mut [u8],
) -> io::Result<()>
    requires { longest 40_960 (length words.old) (length bytes.old) ≤ length out.old }
{
    let n = put_line(out, line, words, bytes);
    rt.write_all(&out[..n])
}

// The rooms hold what the text before left there.
fn replay_all(
    rt: &HostRuntime,
    s: &[u8],
    words: &mut [u32],
    bytes: &mut [u8],
    out: &mut [u8],
) -> io::Result<()>
    requires { longest 40_960 (length words.old) (length bytes.old) ≤ length out.old }
{
    // A line feed is no digit, so that reading ends at it.
    for line in s.split_inclusive(|b| *b == b'\n') {
        replay_line(rt, line, words, bytes, out)?;
    }
    Ok(())
}

// The vectors go into a room of their own, which holds the whole file.
fn replay_input(
    rt: &HostRuntime,
    space: &mut [u8],
    words: &mut [u32],
    bytes: &mut [u8],
    out: &mut [u8],
) -> io::Result<()>
    requires { longest 40_960 (length words.old) (length bytes.old) ≤ length out.old }
{
    let n = read_input(rt, space)?;
    replay_all(rt, &space[..n], words, bytes, out)
}

fn main(rt: HostRuntime) -> io::Result<()> {
    let mut space = [0u8; 1048576];
    let mut words = [7u32; 8195 * RECORD_WORDS];
    let mut bytes = [7u8; 6144];
    let mut out = [0u8; 1175998];
    replay_input(&rt, &mut space, &mut words, &mut bytes, &mut out)
}
