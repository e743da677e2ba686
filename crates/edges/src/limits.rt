// The limits of 01, met and passed.
ghost use Rattle.std.specs.Prelude.{◌≤◌, length};

use printing::say_numbers;
use records::RECORD_WORDS;
use scanner::{Refused, Sizes, scan};
use std::io;

fn say_answer(rt: &HostRuntime, what: &[u8], a: Result<Sizes, Refused>) -> io::Result<()> {
    rt.write_all(what)?;
    match a {
        Ok(n) => {
            say_numbers(&[n.tokens, n.bytes], b'\n');
        }
        Err(r) => {
            let f = r.refusal;
            let m = f.mark;
            say_numbers(&[f.number, m.index, m.line, m.col], b'\n');
        }
    }
    Ok(())
}

// So many '[' and as many ']', in room for two records more.
fn say_levels(rt: &HostRuntime, what: &[u8], levels: usize, text: &mut [u8]) -> io::Result<()>
    requires { (levels ≤ 256) × (512 ≤ length text.old) }
{
    let mut words = [7u32; 514 * RECORD_WORDS];
    let mut bytes = [7u8; 1];
    let end = 2 * levels;
    text[..levels].fill(b'[');
    text[levels..end].fill(b']');
    say_answer(rt, what, scan(&text[..end], &mut words, &mut bytes))
}

fn say_version(rt: &HostRuntime, what: &[u8], text: &[u8]) -> io::Result<()> {
    let mut words = [7u32; 3 * RECORD_WORDS];
    let mut bytes = [7u8; 1];
    say_answer(rt, what, scan(text, &mut words, &mut bytes))
}

// A plain scalar of so many bytes, in room for three records.
fn say_plain(
    rt: &HostRuntime,
    what: &[u8],
    size: usize,
    text: &mut [u8],
    bytes: &mut [u8],
) -> io::Result<()>
    requires { size ≤ length text.old }
{
    let mut words = [7u32; 3 * RECORD_WORDS];
    text[..size].fill(b'a');
    say_answer(rt, what, scan(&text[..size], &mut words, bytes))
}

// For each limit `T D`, or the refusal's number and mark.
pub(crate) fn say_limits(rt: &HostRuntime, text: &mut [u8], bytes: &mut [u8]) -> io::Result<()>
    requires { 1_048_577 ≤ length text.old }
{
    rt.write_all(b"limits: T and D, or refusal and mark\n")?;
    say_levels(rt, b"255 levels: ", 255, text)?;
    say_levels(rt, b"256 levels: ", 256, text)?;
    say_version(rt, b"%YAML 999999999.0: ", b"%YAML 999999999.0")?;
    say_plain(rt, b"1,048,576 bytes: ", 1048576, text, bytes)?;
    say_plain(rt, b"1,048,577 bytes: ", 1048577, text, bytes)
}
