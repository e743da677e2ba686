// Help, and what is wrong with the arguments.
#![tactic(auto)]

mod help;
pub mod status;

use crate::help::{USAGE, say_help};
use crate::status::{DONE, UNREAD, UNWRITTEN};
use arguments::word::MOST_WORD;
use arguments::{Fault, Wrong, copy_word, count};
use outlets::{Outlet, fail, say};
use saving::close_output;

// Help, and the status that it comes to.
pub fn give_help(rt: &HostRuntime) -> u8 {
    if let Err(e) = say_help(&mut Outlet::Output(rt.stdout())) {
        fail(rt, b"standard output", e);
        return UNWRITTEN;
    }
    if close_output(rt) { DONE } else { UNWRITTEN }
}

fn say_usage(rt: &HostRuntime) {
    say(rt, b"\nUsage:\n");
    for line in USAGE {
        say(rt, line.as_bytes());
    }
}

// What is wrong about a word, as far as 4,096 bytes of it go.
fn say_about(rt: &HostRuntime, what: &str, at: usize) {
    let mut space = [0u8; MOST_WORD];
    let word = copy_word(rt, at, &mut space).unwrap_or(b"");
    say(rt, b"tokenglade: ");
    say(rt, what.as_bytes());
    say(rt, b" '");
    say(rt, word);
    say(rt, b"'");
    say_usage(rt);
}

// What is wrong.
pub fn say_wrong(rt: &HostRuntime, what: &str) {
    say(rt, b"tokenglade: ");
    say(rt, what.as_bytes());
    say_usage(rt);
}

pub fn say_no_command(rt: &HostRuntime) {
    if count(rt) < 2 {
        say_wrong(rt, "what is to be done?");
        return;
    }
    say_about(rt, "no such command:", 1);
}

// What is wrong with a word, and the status; `--help` is no fault.
pub fn say_fault(rt: &HostRuntime, w: Wrong) -> u8 {
    match w.fault {
        Fault::Unknown => say_about(rt, "no such option:", w.at),
        Fault::NoFile => say_about(rt, "a FILE is missing behind", w.at),
        Fault::Again => say_about(rt, "given twice:", w.at),
        Fault::Second => say_about(rt, "one SHEET at a time; this is a second one:", w.at),
        Fault::Empty => say_wrong(rt, "an empty name"),
        Fault::Long => say_wrong(rt, "a name of more than 4,096 bytes"),
        Fault::NoText => say_wrong(rt, "a name that is not UTF-8"),
        Fault::Help => return give_help(rt),
    }
    UNREAD
}
