// Where bytes go: standard output, standard error or a file. And what is said of what failed.
#![tactic(auto)]

pub mod buffered;

use std::fmt::InlineText;
use std::fs::File;
use std::io;
use std::io::{Stderr, Stdout, Write};

#[derive(Drop)]
pub enum Outlet {
    Output(Stdout),
    Error(Stderr),
    File(File),
}

impl Outlet {
    // Writes all of the bytes, or stops at the first write that fails.
    pub fn put(&mut self, bytes: &[u8]) -> io::Result<()> {
        match self {
            Outlet::Output(out) => Write::write_all(out, bytes),
            Outlet::Error(error) => Write::write_all(error, bytes),
            Outlet::File(file) => Write::write_all(file, bytes),
        }
    }
}

// Writes on standard error. Where that fails, nobody can be told.
pub fn say(rt: &HostRuntime, bytes: &[u8]) {
    let _ = Print::write_all(&rt.stderr(), bytes);
}

// The system's words for an error, without the number behind them.
fn without_number(words: &str) -> &str {
    match words.split_once(" (os error ") {
        Some((before, _)) => before,
        None => words,
    }
}

// Writes a line on standard error: what failed, as the caller names it, a colon and why.
pub fn fail(rt: &HostRuntime, what: &[u8], why: io::Error) {
    let words = InlineText::<128>::of(why);
    say(rt, what);
    say(rt, b": ");
    say(rt, without_number(words.as_str()).as_bytes());
    say(rt, b"\n");
}

// The name of a file as the system is asked for it: text. No other name can be opened.
pub fn path(name: &[u8]) -> io::Result<&str> {
    match std::str::from_utf8(name) {
        Ok(text) => Ok(text),
        Err(_) => Err(io::Error::new(io::ErrorKind::InvalidInput, "the name is not UTF-8")),
    }
}
