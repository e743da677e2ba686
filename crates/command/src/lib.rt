// The program `tokenglade`: what stands behind its name decides. The answer is the exit status.
#![tactic(auto)]

mod listed;

use crate::listed::list_plan;
use arguments::word::MOST_WORD;
use arguments::{Verb, copy_word, read_arguments};
use jobs::run_plan;
use std::fs::{File, OpenOptions};
use std::os::fd::{AsRawFd, IntoRawFd};
use usage::status::UNREAD;
use usage::{give_help, say_fault, say_no_command};

// The numbers of standard input and error. Output's lies between.
const INPUT: i32 = 0;

const ERROR: i32 = 2;

// Whether a file has a number above this one, and is closed then. Otherwise it stays open.
fn is_above(file: File, number: i32) -> bool {
    if number < file.as_raw_fd() {
        return true;
    }
    file.into_raw_fd();
    false
}

// A folder takes the number of standard output or error where it is closed: it can't be written.
fn take_outputs(rt: &HostRuntime) {
    for _ in 0..3u8 {
        match File::open(rt, "/") {
            Ok(folder) => {
                if is_above(folder, ERROR) {
                    return;
                }
            }
            Err(_) => {}
        }
    }
}

// The first file that is opened would get the number of standard input, output or error where that is closed. Input's goes to a file that can't be read.
fn take_closed(rt: &HostRuntime) {
    match OpenOptions::new().append(true).open(rt, "/dev/null") {
        Ok(file) => {
            is_above(file, INPUT);
        }
        Err(_) => {}
    }
    take_outputs(rt);
}

// A word that is too long is no command.
fn run_first(rt: &HostRuntime, text: &mut [u8], words: &mut [u32], bytes: &mut [u8]) -> u8 {
    let mut space = [0u8; MOST_WORD];
    match copy_word(rt, 1, &mut space).unwrap_or(b"") {
        b"job" => match read_arguments(rt, Verb::Job) {
            Ok(plan) => run_plan(rt, plan, text, words, bytes),
            Err(w) => say_fault(rt, w),
        },
        b"tokens" => match read_arguments(rt, Verb::Tokens) {
            Ok(plan) => list_plan(rt, plan, text, words, bytes),
            Err(w) => say_fault(rt, w),
        },
        b"help" | b"--help" => give_help(rt),
        _ => {
            say_no_command(rt);
            UNREAD
        }
    }
}

// The text is read into the first room, which has a byte more than a sheet may have; the others are lent to the scanner.
pub fn tokenglade_command(
    rt: &HostRuntime,
    text: &mut [u8],
    words: &mut [u32],
    bytes: &mut [u8],
) -> u8 {
    take_closed(rt);
    run_first(rt, text, words, bytes)
}
