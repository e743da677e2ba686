// Opening and reading a sheet.
#![tactic(auto)]

ghost use Rattle.std.specs.Prelude.{◌≡◌, length};
ghost use Rattle.std.specs.Io.{ReadsAtMost};
ghost use Rattle.sheets.specs.Sheet.{Within, ending};

use outlets::{fail, path};
use std::fs::File;
use std::io;
use std::io::{Read, Stdin};

// What a sheet is read from: standard input or a file.
#[derive(Drop)]
pub enum Source {
    Input(Stdin),
    File(File),
}

// What was read of a sheet into a room. Its own type, since `ended` promises which of three cases a read comes to.
#[derive(Clone, Copy)]
pub enum Sheet {
    // All of it, so many bytes: a read behind the last one answered 0.
    Whole(usize),
    // As much as the room holds. More may follow.
    Full,
    // A part: a read failed.
    Broken,
}

// What a read that moved nothing says of a sheet of which n bytes were read.
fn ended(got: isize, n: usize) -> Sheet
    ensures { result ≡ ending got n }
{
    if got == 0 {
        Sheet::Whole(n)
    } else {
        Sheet::Broken
    }
}

// Says why something just failed with a sheet. One without a name is standard input.
pub fn fail_sheet(rt: &HostRuntime, name: &[u8], why: io::Error) {
    if name.is_empty() {
        fail(rt, b"standard input", why);
    } else {
        fail(rt, name, why);
    }
}

fn open(rt: &HostRuntime, name: &[u8]) -> io::Result<File> {
    File::open(rt, path(name)?)
}

// What a sheet is read from: a file, or standard input where there is no name. Where there is none, standard error says why.
pub fn open_sheet(rt: &HostRuntime, name: Option<&str>) -> Option<Source> {
    match name {
        Some(file) => open_file(rt, file.as_bytes()),
        None => Some(Source::Input(rt.stdin())),
    }
}

// The file of a name. Where there is none, standard error says why.
pub fn open_file(rt: &HostRuntime, name: &[u8]) -> Option<Source> {
    match open(rt, name) {
        Ok(file) => Some(Source::File(file)),
        Err(e) => {
            fail(rt, name, e);
            None
        }
    }
}

fn read_some(from: &mut Source, room: &mut [u8]) -> io::Result<usize>
    ensures { ReadsAtMost result room.new }
{
    match from {
        Source::Input(input) => input.read(room),
        Source::File(file) => file.read(room),
    }
}

// Reads until the room is full, the input ends or a read fails, and then standard error says why.
// By hand: the next read goes behind what the one before has read, and how much that is each read says.
pub fn read_sheet(rt: &HostRuntime, name: Option<&str>, from: &mut Source, room: &mut [u8]) -> Sheet
    ensures { Within (length room.new) result }
{
    let mut n = 0;
    while n < room.len() {
        match read_some(from, &mut room[n..]) {
            Ok(k) => {
                if k == 0 {
                    return ended(k as isize, n);
                }
                n += k;
            }
            Err(e) => {
                fail_sheet(rt, name.unwrap_or("").as_bytes(), e);
                return ended(-1, n);
            }
        }
    }
    Sheet::Full
}
