// What taking the tokens of a text one at a time gives, written as a line of vectors has it.
ghost use Rattle.std.specs.Prelude.{◌+◌, ◌<◌, ◌^◌, ◌≤◌, length};

use crate::MOST_BYTES;
use driver::held::HELD_WORDS;
use printing::say_numbers;
use records::RECORD_WORDS;
use records::token::kind_number;
use std::io;
use stream::{Next, next_token};
use vectors::{behind, put_hex};
use yaml_lexeme::Kind;
use yaml_text::Refusal;

// How many tokens are given before the first call that gives none. By demand 3 there are no more than are counted here.
fn count_tokens(text: &[u8], words: &mut [u32], bytes: &mut [u8]) -> u32
    requires { length text.now < 2 ^ 30 }
{
    let mut held = [0u32; HELD_WORDS];
    let mut token = [0u32; RECORD_WORDS];
    let most = 2 * text.len() as u32 + 4;
    for n in 0..most {
        match next_token(&mut held, text, words, bytes, &mut token) {
            Ok(Next::Token) => {}
            _ => return n,
        }
    }
    most
}

// Where a text ends.
fn text_end(offset: u32, len: u32) -> usize {
    offset as usize + len as usize
}

// How many bytes hold the texts of the tokens up to this one. A version has numbers where others have texts.
fn used_behind(used: usize, token: [u32; RECORD_WORDS]) -> usize {
    if token[0] == kind_number(Kind::VersionDirective { major: 0, minor: 0 }) {
        return used;
    }
    used.max(text_end(token[7], token[8]))
        .max(text_end(token[9], token[10]))
}

// Writes a record, and a byte behind it.
fn say_record(rt: &HostRuntime, token: [u32; RECORD_WORDS], end: u8) -> io::Result<()> {
    say_numbers(&token, end);
    Ok(())
}

// Writes the record of the next token, and a byte behind it; how many bytes hold the texts then.
fn say_token(
    rt: &HostRuntime,
    held: &mut [u32; HELD_WORDS],
    text: &[u8],
    words: &mut [u32],
    bytes: &mut [u8],
    used: usize,
    end: u8,
) -> io::Result<usize> {
    let mut token = [0u32; RECORD_WORDS];
    let _ = next_token(held, text, words, bytes, &mut token);
    say_record(rt, token, end)?;
    Ok(used_behind(used, token))
}

// Writes the records of n tokens; how many bytes hold their texts.
fn say_tokens(
    rt: &HostRuntime,
    held: &mut [u32; HELD_WORDS],
    text: &[u8],
    words: &mut [u32],
    bytes: &mut [u8],
    n: u32,
) -> io::Result<usize> {
    let mut used = 0;
    for i in 0..n {
        used = say_token(rt, held, text, words, bytes, used, behind(n - i - 1))?;
    }
    Ok(used)
}

// Writes bytes in hexadecimal.
fn say_bytes(rt: &HostRuntime, bytes: &[u8]) -> io::Result<()>
    requires { length bytes.now ≤ 16_128 }
{
    let mut out = [0u8; 2 * MOST_BYTES];
    let n = put_hex(&mut out, 0, bytes);
    rt.write_all(&out[..n])
}

// Writes an answer that is no token.
fn say_answer(rt: &HostRuntime, a: Result<Next, Refusal>, end: u8) -> io::Result<()> {
    match a {
        Err(f) => {
            let m = f.mark;
            rt.write_all(b"R ")?;
            say_numbers(&[f.number, m.index, m.line, m.col], end);
            Ok(())
        }
        Ok(_) => rt.write_all(&[b'E', end]),
    }
}

// Writes the answer of one more call.
fn say_next(
    rt: &HostRuntime,
    held: &mut [u32; HELD_WORDS],
    text: &[u8],
    words: &mut [u32],
    bytes: &mut [u8],
    end: u8,
) -> io::Result<()> {
    let mut token = [0u32; RECORD_WORDS];
    let a = next_token(held, text, words, bytes, &mut token);
    say_answer(rt, a, end)
}

// Writes how many tokens there are. Where there are some, the last record has the bar behind it.
fn say_count(rt: &HostRuntime, text: &[u8], words: &mut [u32], bytes: &mut [u8]) -> io::Result<u32>
    requires { length text.now < 2 ^ 30 }
{
    let n = count_tokens(text, words, bytes);
    say_numbers(&[n], b'|');
    if n == 0 {
        rt.write_all(b"|")?;
    }
    Ok(n)
}

// Writes the bytes that hold the texts.
fn say_used(rt: &HostRuntime, bytes: &[u8], used: usize) -> io::Result<()>
    requires { length bytes.now ≤ 16_128 }
{
    say_bytes(rt, &bytes[..used.min(bytes.len())])?;
    rt.write_all(b"|")
}

// Writes n tokens and the answers of the next two calls.
fn say_given(
    rt: &HostRuntime,
    text: &[u8],
    words: &mut [u32],
    bytes: &mut [u8],
    n: u32,
) -> io::Result<()>
    requires { length bytes.old ≤ 16_128 }
{
    let mut held = [0u32; HELD_WORDS];
    let used = say_tokens(rt, &mut held, text, words, bytes, n)?;
    say_used(rt, bytes, used)?;
    say_next(rt, &mut held, text, words, bytes, b'|')?;
    say_next(rt, &mut held, text, words, bytes, b'\n')
}

// The tokens are counted first, then taken again.
pub(crate) fn say_taken(
    rt: &HostRuntime,
    text: &[u8],
    words: &mut [u32],
    bytes: &mut [u8],
) -> io::Result<()>
    requires { (length text.now < 2 ^ 30) × (length bytes.old ≤ 16_128) }
{
    let n = say_count(rt, text, words, bytes)?;
    say_given(rt, text, words, bytes, n)
}
