// The program `tokenglade`: lends the rooms that `command` asks for, and ends with the status that it answers.
#![tactic(auto)]

use command::tokenglade_command;
use std::process::ExitCode;

// A byte more than a sheet may have; 4,400 records of 12 words; a byte and a half for each byte of a sheet.
const TEXT_BYTES: usize = 1_048_577;

const WORDS: usize = 52_800;

const BYTES: usize = 1_572_864;

fn main(rt: HostRuntime) -> ExitCode {
    let mut text = [0u8; TEXT_BYTES];
    let mut words = [0u32; WORDS];
    let mut bytes = [0u8; BYTES];
    ExitCode::from(tokenglade_command(&rt, &mut text, &mut words, &mut bytes))
}
