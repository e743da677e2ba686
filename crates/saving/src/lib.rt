// Files that stand whole in their place or not there: each is written beside its place under a name of its own, and takes its place when all of it is kept.
#![tactic(auto)]

use identity::{is_same, of_name};
use outlets::{Outlet, fail};
use std::fmt::InlineText;
use std::fs::{File, Metadata, OpenOptions};
use std::os::unix::fs::FileTypeExt;
use std::random::RandomSource;
use std::str::from_utf8;
use std::{fs, io};

// Room for a name of up to 4,096 bytes, and what a file's own name has behind it.
pub const NAME_ROOM: usize = 4104;

const BEHIND: usize = 7;

pub type Name = InlineText<NAME_ROOM>;

// A file that is being written, with its own name; or standard output, which has none.
#[derive(Drop)]
pub struct Begun {
    pub out: Outlet,
    pub name: Option<Name>,
}

fn letter(b: u8) -> u8 {
    b'a' + b % 26
}

// A dot and six letters that no other run has, as good as surely.
fn letters(rt: &HostRuntime) -> [u8; BEHIND] {
    let mut r = [0u8; 6];
    let _ = rt.fill_bytes(&mut r);
    let [a, b, c, d, e, f] = r.map(letter);
    [b'.', a, b, c, d, e, f]
}

// The name of a new file beside FILE.
fn name_beside(file: &str, behind: &str) -> Name {
    Name::new()
        .and_str(file, NAME_ROOM - BEHIND - 1)
        .and_str(behind, BEHIND)
}

// A new file: the name must not be taken.
fn create(rt: &HostRuntime, name: &str) -> io::Result<File> {
    OpenOptions::new()
        .write(true)
        .create_new(true)
        .open(rt, name)
}

// Makes a new file beside FILE, with the mode that the process gives its files. Where it can't be made, standard error says why.
pub fn begin_file(rt: &HostRuntime, file: &str) -> Option<Begun> {
    let name = name_beside(file, from_utf8(&letters(rt)).unwrap_or(""));
    match create(rt, name.as_str()) {
        Ok(made) => Some(Begun {
            out: Outlet::File(made),
            name: Some(name),
        }),
        Err(e) => {
            fail(rt, file.as_bytes(), e);
            None
        }
    }
}

// Some files can't be synchronised, as pipes and terminals: EINVAL, EROFS, ENOSYS, EOPNOTSUPP.
fn has_no_sync(error: io::Error) -> bool {
    match error.raw_os_error() {
        Some(22 | 30 | 38 | 95) => true,
        _ => false,
    }
}

// Ends a file: an error where not all that was written is kept. It is closed then, in any case.
fn settle(file: File) -> io::Result<()> {
    match file.sync_all() {
        Ok(()) => Ok(()),
        Err(e) => {
            if has_no_sync(e) {
                return Ok(());
            }
            Err(e)
        }
    }
}

// The folder that FILE stands in.
fn folder(file: &str) -> &str {
    match file.rfind('/') {
        Some(n) => &file[..n + 1],
        None => ".",
    }
}

// Keeps the folder's entry for FILE, as far as the folder can be opened.
fn enter(rt: &HostRuntime, file: &str) -> io::Result<()> {
    match File::open(rt, folder(file)) {
        Ok(opened) => settle(opened),
        Err(_) => Ok(()),
    }
}

fn put_in_place(rt: &HostRuntime, out: Outlet, name: &str, file: &str) -> io::Result<()> {
    if let Outlet::File(made) = out {
        settle(made)?;
    }
    fs::rename(rt, name, file)
}

// Puts the file in its place. Where that fails, standard error says why, and nothing is left beside it.
pub fn finish_file(rt: &HostRuntime, begun: Begun, file: &str) -> bool {
    let Begun { out, name } = begun;
    let own = name.unwrap_or(Name::new());
    if let Err(e) = put_in_place(rt, out, own.as_str(), file) {
        fail(rt, file.as_bytes(), e);
        let _ = fs::remove_file(rt, own.as_str());
        return false;
    }
    match enter(rt, file) {
        Ok(()) => true,
        Err(e) => {
            fail(rt, file.as_bytes(), e);
            false
        }
    }
}

// Removes a file that will not be finished.
pub fn drop_file(rt: &HostRuntime, begun: Begun) {
    let Begun { out, name } = begun;
    drop(out);
    if let Some(own) = name {
        let _ = fs::remove_file(rt, own.as_str());
    }
}

// Whether FILE is the place of a file that was begun, by whatever name: a file with the same letters behind it stands beside both.
pub fn is_place(rt: &HostRuntime, begun: &Begun, file: &str) -> bool {
    let Some(own) = begun.name else {
        return false;
    };
    let name = own.as_str();
    let Some((_, behind)) = name.rsplit_once('.') else {
        return false;
    };
    let beside = name_beside(file, ".").and_str(behind, BEHIND);
    is_same(of_name(rt, beside.as_str()), of_name(rt, name))
}

// Where standard output goes, as a file.
const OUTPUT: &str = "/dev/stdout";

// Only what a disk holds can be synchronised.
fn is_on_disk(m: &Metadata) -> bool {
    m.is_file() | m.file_type().is_block_device()
}

// The file that standard output goes to, once more: a file's own descriptor alone can be synchronised.
fn open_output(rt: &HostRuntime) -> io::Result<File> {
    match File::open(rt, OUTPUT) {
        Ok(file) => Ok(file),
        Err(_) => OpenOptions::new().write(true).open(rt, OUTPUT),
    }
}

fn settle_output(rt: &HostRuntime) -> io::Result<()> {
    if is_on_disk(&fs::metadata(rt, OUTPUT)?) {
        return settle(open_output(rt)?);
    }
    Ok(())
}

// Ends standard output, and says on standard error where something of it was not kept.
pub fn close_output(rt: &HostRuntime) -> bool {
    match settle_output(rt) {
        Ok(()) => true,
        Err(e) => {
            fail(rt, b"standard output", e);
            false
        }
    }
}
