// Which file it is that a name stands for.
#![tactic(auto)]

use std::fs;
use std::os::unix::fs::MetadataExt;

// A file: its device, and its number there.
#[derive(Clone, Copy, PartialEq, Eq)]
pub struct Identity {
    pub device: u64,
    pub number: u64,
}

// The file behind a link; none where there is none, or the name is too long.
pub fn of_name(rt: &HostRuntime, name: &str) -> Option<Identity> {
    let m = fs::metadata(rt, name).ok()?;
    Some(Identity {
        device: m.dev(),
        number: m.ino(),
    })
}

pub fn is_link(rt: &HostRuntime, name: &str) -> bool {
    match fs::symlink_metadata(rt, name) {
        Ok(m) => m.is_symlink(),
        Err(_) => false,
    }
}

// Whether both are there, and one file.
pub fn is_same(a: Option<Identity>, b: Option<Identity>) -> bool {
    a.is_some() & (a == b)
}

// Whether it is there and is no ordinary file: a folder, a device, a pipe.
pub fn is_special(rt: &HostRuntime, name: &str) -> bool {
    match fs::metadata(rt, name) {
        Ok(m) => !m.is_file(),
        Err(_) => false,
    }
}
