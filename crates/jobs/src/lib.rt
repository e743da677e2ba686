// `job`: the old files, the sheet; then the job.
#![tactic(auto)]

mod hand;
mod names;
mod old;
mod output;
mod run;
mod status;

ghost use Rattle.std.specs.Prelude.{length};
ghost use Rattle.jobs.specs.Status.{ReadAnswers};

use crate::names::Names;
use crate::old::{remove_old, would_lose, would_mix};
use crate::output::begin_seeds;
use crate::run::run_text;
use arguments::word::MOST_WORD;
use arguments::{Plan, name_at};
use outlets::say;
use saving::{Begun, drop_file, is_place};
use sheets::{Sheet, Source, open_sheet, read_sheet};
use usage::say_wrong;
use usage::status::{UNREAD, UNWRITTEN};

// A sheet of more bytes is refused by the reader.
const MOST_TEXT: usize = 1_048_576;

// A room that is full holds more bytes than a sheet may have, and the reader refuses them. A smaller room may hold only a part of the sheet.
fn run_full(
    rt: &HostRuntime,
    names: Names,
    begun: Begun,
    text: &[u8],
    words: &mut [u32],
    bytes: &mut [u8],
) -> u8
    ensures { ReadAnswers text.now (length words.old) (length bytes.old) names.entry.allowed result }
{
    if MOST_TEXT < text.len() {
        return run_text(rt, names, begun, text, words, bytes);
    }
    drop_file(rt, begun);
    say(rt, b"tokenglade: no room for the sheet\n");
    UNREAD
}

// Reads the sheet, and runs the job that it is.
fn run_read(
    rt: &HostRuntime,
    from: &mut Source,
    names: Names,
    begun: Begun,
    text: &mut [u8],
    words: &mut [u32],
    bytes: &mut [u8],
) -> u8
    ensures { ReadAnswers text.new (length words.old) (length bytes.old) names.entry.allowed result }
{
    let read = read_sheet(rt, names.sheet, from, text);
    match read {
        Sheet::Whole(n) => run_text(rt, names, begun, &text[..n], words, bytes),
        Sheet::Full => run_full(rt, names, begun, text, words, bytes),
        Sheet::Broken => {
            drop_file(rt, begun);
            UNREAD
        }
    }
}

// The sheet is open.
fn run_open(
    rt: &HostRuntime,
    mut from: Source,
    names: Names,
    text: &mut [u8],
    words: &mut [u32],
    bytes: &mut [u8],
) -> u8
    ensures { ReadAnswers text.new (length words.old) (length bytes.old) names.entry.allowed result }
{
    let Some(begun) = begin_seeds(rt, names) else {
        return UNWRITTEN;
    };
    if let Some(record) = names.record {
        if is_place(rt, &begun, record) {
            drop_file(rt, begun);
            say_wrong(rt, "--record and --seeds name the same FILE");
            return UNREAD;
        }
    }
    run_read(rt, &mut from, names, begun, text, words, bytes)
}

// What is wrong with names, if anything is.
fn wrong_names(rt: &HostRuntime, names: Names) -> Option<&'static str> {
    if names.clash() {
        return Some("SHEET and the FILEs of --record and --seeds must be different files");
    }
    if would_lose(rt, names) {
        return Some("the sheet itself can't be the FILE of --record or --seeds");
    }
    if would_mix(rt, names) {
        return Some(
            "standard output or error goes to the FILE of --record or --seeds. Name another FILE",
        );
    }
    None
}

fn run_named(
    rt: &HostRuntime,
    names: Names,
    text: &mut [u8],
    words: &mut [u32],
    bytes: &mut [u8],
) -> u8
    ensures { ReadAnswers text.new (length words.old) (length bytes.old) names.entry.allowed result }
{
    if let Some(what) = wrong_names(rt, names) {
        say_wrong(rt, what);
        return UNREAD;
    }
    if !remove_old(rt, names) {
        return UNWRITTEN;
    }
    let Some(from) = open_sheet(rt, names.sheet) else {
        return UNREAD;
    };
    run_open(rt, from, names, text, words, bytes)
}

// Of a job that was run the status says what the definition does of the text that was read.
pub fn run_plan(
    rt: &HostRuntime,
    plan: Plan,
    text: &mut [u8],
    words: &mut [u32],
    bytes: &mut [u8],
) -> u8
    ensures { ReadAnswers text.new (length words.old) (length bytes.old) plan.allowed result }
{
    let mut sheet = [0u8; MOST_WORD];
    let mut record = [0u8; MOST_WORD];
    let mut seeds = [0u8; MOST_WORD];
    let names = Names {
        sheet: name_at(rt, plan.sheet, &mut sheet),
        record: name_at(rt, plan.record, &mut record),
        seeds: name_at(rt, plan.seeds, &mut seeds),
        allowed: plan.allowed,
    };
    run_named(rt, names, text, words, bytes)
}
