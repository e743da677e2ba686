// Lists the tokens of a sheet of up to 512 bytes: `T D`, then a line for each token; or a refusal's number and mark.
// The sheet is standard input. Where arguments are given, each names a file that is listed so, and `-` is standard input.
#![tactic(auto)]

ghost use Rattle.std.specs.Prelude.{◌*◌, ◌+◌, ◌/◌, ◌≤◌, length};
ghost use Rattle.yaml_lexeme.specs.Record.{record_words};
ghost use Rattle.printing.specs.Lines.{lines_text};
ghost use Rattle.printing.specs.Listing.{listing_of, verdict_lines};
ghost use Rattle.printing.specs.Rooms.{tokens_left};
ghost use Rattle.printing.specs.Written.{Written};
ghost use Rattle.scanner.specs.Promise.{verdict_of};
ghost use Rattle.sheets.specs.Sheet.{Within};
ghost use Rattle.listing.specs.Sheet.{Lists};

use arguments::count;
use arguments::word::MOST_WORD;
use outlets::{Outlet, fail};
use printing::{put_numbers, put_records};
use records::RECORD_WORDS;
use scanner::{Refused, Sizes, scan_with};
use sheets::{Sheet, Source, open_file, read_sheet};
use std::env::FillError;
use std::io;
use std::rt::Env;
use std::str::from_utf8;
use yaml_scan::Limits;

// The listing of an answer, with what the words hold; how long it is.
fn put_answer(out: &mut [u8], a: Result<Sizes, Refused>, words: &[u32]) -> usize
    requires { tokens_left (verdict_of a) * record_words ≤ length words.now }
    ensures written { Written out.old 0 (lines_text (verdict_lines (verdict_of a) words.now)) out.new result }
    ensures upper_bound { result ≤ 44 + 110 * (length words.now / record_words) }
{
    match a {
        Ok(n) => {
            let next = put_numbers(out, 0, &[n.tokens, n.bytes], b' ', b'\n');
            put_records(out, next, words, n.tokens)
        }
        Err(r) => {
            let f = r.refusal;
            let m = f.mark;
            put_numbers(out, 0, &[f.number, m.index, m.line, m.col], b' ', b'\n')
        }
    }
}

// The listing of a text, which has at most 113,014 bytes. The rooms are as large as demand 3 asks for 512 bytes: 1,027 records and 768 bytes.
fn list(text: &[u8], out: &mut [u8]) -> usize
    ensures written { Written out.old 0 (listing_of text.now) out.new result }
    ensures upper_bound { result ≤ 113_014 }
{
    let limits = Limits {
        bytes: 512,
        levels: 255,
        entries: 255,
    };
    let mut words = [0u32; 1027 * RECORD_WORDS];
    let mut bytes = [0u8; 768];
    let a = scan_with(limits, text, &mut words, &mut bytes);
    put_answer(out, a, &words)
}

// The listing of what was read into a room of at least 513 bytes, a byte more than a sheet may have.
fn list_read(room: &[u8], read: Sheet, out: &mut [u8]) -> usize
    requires { (513 ≤ length room.now) × Within (length room.now) read }
    ensures lists { Lists room.now read out.old out.new result }
    ensures upper_bound { result ≤ 113_014 }
{
    match read {
        Sheet::Whole(n) => list(&room[..n], out),
        Sheet::Full => list(room, out),
        Sheet::Broken => 0,
    }
}

// Writes the listing of what was read; a write that fails is told on standard error.
fn write_listing(rt: &HostRuntime, room: &[u8], read: Sheet)
    requires { (513 ≤ length room.now) × Within (length room.now) read }
{
    let mut out = [0u8; 113014];
    let n = list_read(room, read, &mut out);
    if let Err(e) = Outlet::Output(rt.stdout()).put(&out[..n]) {
        fail(rt, b"standard output", e);
    }
}

// Lists the sheet that is read from a source. Of a part of one nothing is listed, and standard error has its name and what failed.
fn list_sheet(rt: &HostRuntime, name: Option<&str>, from: &mut Source) {
    let mut room = [0u8; 513];
    let read = read_sheet(rt, name, from, &mut room);
    match read {
        Sheet::Broken => {}
        _ => write_listing(rt, &room, read),
    }
}

// Lists standard input.
fn list_input(rt: &HostRuntime) {
    list_sheet(rt, None, &mut Source::Input(rt.stdin()));
}

// Lists the sheet that a file holds.
fn list_file(rt: &HostRuntime, name: &str) {
    if let Some(mut from) = open_file(rt, name.as_bytes()) {
        list_sheet(rt, Some(name), &mut from);
    }
}

// The system's numbers of what is wrong with an argument: EINVAL where it is missing, ENAMETOOLONG where it is too long.
fn why(e: FillError) -> io::Error {
    match e {
        FillError::NotPresent => io::Error::from_raw_os_error(22),
        FillError::TooLong => io::Error::from_raw_os_error(36),
    }
}

// Lists the sheet that an argument names.
fn list_argument(rt: &HostRuntime, i: usize) {
    let mut space = [0u8; MOST_WORD];
    match rt.arg(i, &mut space) {
        Ok(n) => list_named(rt, &space[..n]),
        Err(e) => fail(rt, b"argument", why(e)),
    }
}

// A name that is no text can't be opened, and is told so.
fn list_named(rt: &HostRuntime, name: &[u8]) {
    match from_utf8(name) {
        Ok("-") => list_input(rt),
        Ok(file) => list_file(rt, file),
        Err(_) => {
            open_file(rt, name);
        }
    }
}

fn list_arguments(rt: &HostRuntime, count: usize) {
    for i in 1..count {
        list_argument(rt, i);
    }
}

fn main(rt: HostRuntime) {
    let count = count(&rt);
    if count < 2 {
        list_input(&rt);
        return;
    }
    list_arguments(&rt, count);
}
