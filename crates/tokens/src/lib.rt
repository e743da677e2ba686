// Lists the tokens of a text as they come, one a line: `LINE:COLUMN Kind`, then the style of a scalar, and texts in quotes.
#![tactic(auto)]

ghost use Rattle.std.specs.Prelude.{◌≡◌, ⊤};
ghost use Rattle.tokens.specs.Accepted.{Accepted, Lists};

use chars::mark::origin;
use chars::refuse::refuse;
use driver::held::HELD_WORDS;
use messages::count::enough_calls;
use messages::say_refusal;
use outlets::{Outlet, fail};
use records::RECORD_WORDS;
use records::found::token_of;
use std::io;
use stream::{Next, next_token};
use token_lines::Output;
use token_lines::kind::put_token;
use yaml_text::Refusal;

// How the listing of a text ended.
#[derive(Clone, Copy, PartialEq, Eq)]
pub enum Listed {
    // With StreamEnd.
    Accepted,
    Refused,
    // Not all could be written.
    Unwritten,
}

// Lists tokens until none is given: at the end, or a refusal.
fn put_tokens(
    to: &mut Output,
    text: &[u8],
    words: &mut [u32],
    bytes: &mut [u8],
) -> io::Result<Result<(), Refusal>>
    ensures { Lists text.now result }
{
    let mut held = [0u32; HELD_WORDS];
    let mut token = [0u32; RECORD_WORDS];
    for _ in 0..enough_calls(text) {
        match next_token(&mut held, text, words, bytes, &mut token) {
            Ok(Next::Token) => {}
            Ok(Next::Ended) => {
                return Ok(Ok(()));
            }
            Err(f) => {
                return Ok(Err(f));
            }
        }
        if let Some(t) = token_of(&token, 0) {
            put_token(to, t, bytes)?;
        }
    }
    // What no text comes to: tokens that go on behind the last.
    Ok(refuse(0, origin()))
}

// The lines, through a buffer.
fn list_lines(
    out: &mut Outlet,
    text: &[u8],
    words: &mut [u32],
    bytes: &mut [u8],
) -> io::Result<Result<(), Refusal>>
    ensures { Lists text.now result }
{
    let mut to = Output::new(out);
    let r = put_tokens(&mut to, text, words, bytes)?;
    to.flush()?;
    Ok(r)
}

// Lists the tokens of a text on standard output. A refusal is said on standard error.
pub fn list_tokens(
    rt: &HostRuntime,
    name: Option<&str>,
    text: &[u8],
    words: &mut [u32],
    bytes: &mut [u8],
) -> Listed
    ensures { result ≡ Listed.Accepted → Accepted text.now }
{
    match list_lines(&mut Outlet::Output(rt.stdout()), text, words, bytes) {
        Ok(Ok(())) => Listed::Accepted,
        Ok(Err(f)) => {
            say_refusal(rt, name, text, f, words, bytes);
            Listed::Refused
        }
        Err(e) => {
            fail(rt, b"standard output", e);
            Listed::Unwritten
        }
    }
}
