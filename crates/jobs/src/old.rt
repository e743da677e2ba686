// The FILEs of --record and --seeds, as an earlier job left them.
use crate::names::Names;
use identity::{Identity, is_link, is_same, is_special, of_name};
use outlets::{fail, say};
use std::{fs, io};

// Whether a FILE that is named is this file.
fn is_file(rt: &HostRuntime, a: Option<Identity>, file: Option<&str>) -> bool {
    match file {
        Some(name) => is_same(a, of_name(rt, name)),
        None => false,
    }
}

// Whether it is the FILE of --record or --seeds.
fn is_either(rt: &HostRuntime, name: &str, names: Names) -> bool {
    let a = of_name(rt, name);
    is_file(rt, a, names.record) | is_file(rt, a, names.seeds)
}

// Whether a FILE is the sheet itself.
pub(crate) fn would_lose(rt: &HostRuntime, names: Names) -> bool {
    is_either(rt, names.sheet.unwrap_or("/dev/stdin"), names)
}

// Whether standard output or error goes to a FILE.
pub(crate) fn would_mix(rt: &HostRuntime, names: Names) -> bool {
    is_either(rt, "/dev/stdout", names) | is_either(rt, "/dev/stderr", names)
}

// What an old FILE that stays may hold is of another run.
fn say_stays(rt: &HostRuntime, file: &str, why: &str) {
    say(rt, file.as_bytes());
    say(rt, why.as_bytes());
    say(
        rt,
        b" stays as it is, and says nothing of this run. Name another FILE\n",
    );
}

// Whether nothing but an ordinary file would be removed.
fn may_go(rt: &HostRuntime, file: &str) -> bool {
    if is_special(rt, file) | is_link(rt, file) {
        say_stays(rt, file, ": this is no ordinary file, and");
        return false;
    }
    true
}

fn remove(rt: &HostRuntime, file: &str) -> bool {
    if !may_go(rt, file) {
        return false;
    }
    match fs::remove_file(rt, file) {
        Ok(()) => true,
        Err(e) => {
            if e.kind() == io::ErrorKind::NotFound {
                return true;
            }
            fail(rt, file.as_bytes(), e);
            say_stays(rt, file, ": it");
            false
        }
    }
}

fn remove_named(rt: &HostRuntime, file: Option<&str>) -> bool {
    match file {
        Some(name) => remove(rt, name),
        None => true,
    }
}

// Whether neither is there any more. Standard error says why where one stays. The record goes, if it may, whatever becomes of the seeds.
pub(crate) fn remove_old(rt: &HostRuntime, names: Names) -> bool {
    remove_named(rt, names.record) & remove_named(rt, names.seeds)
}
