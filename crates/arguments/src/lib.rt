// The words behind `job` and `tokens`: options, and the names of files.
#![tactic(auto)]

pub mod word;

ghost use Rattle.std.specs.Prelude.{◌≤◌, length, IfSome};

use crate::word::{MOST_WORD, Word, word_at};
use std::env::FillError;
use std::rt::Env;
use std::str::from_utf8;

// Which words name the sheet, the record's file and the seeds' file, by their numbers. Whether an empty list of seeds is allowed.
#[derive(Clone, Copy)]
pub struct Plan {
    pub sheet: Option<usize>,
    pub record: Option<usize>,
    pub seeds: Option<usize>,
    pub allowed: bool,
}

// What is wrong with a word.
#[derive(Clone, Copy)]
pub enum Fault {
    // No such option here.
    Unknown,
    // An option that wants a FILE, and none follows.
    NoFile,
    // An option that came before.
    Again,
    // A second SHEET.
    Second,
    Empty,
    // More than 4,096 bytes.
    Long,
    // A name that is not UTF-8.
    NoText,
    // Not wrong: `--help`.
    Help,
}

// The word that is wrong, by its number.
#[derive(Clone, Copy)]
pub struct Wrong {
    pub fault: Fault,
    pub at: usize,
}

// What the next word is for.
#[derive(Clone, Copy)]
enum Wants {
    Anything,
    // Behind `--record` and `--seeds`.
    Record,
    Seeds,
    // Behind `--`.
    Sheet,
}

// The words behind `job`, or those behind `tokens`, which has no options.
#[derive(Clone, Copy)]
pub enum Verb {
    Job,
    Tokens,
}

// The words so far.
#[derive(Clone, Copy)]
struct Taken {
    plan: Plan,
    wants: Wants,
}

fn fails<T>(fault: Fault, at: usize) -> Result<T, Wrong> {
    Err(Wrong { fault, at })
}

impl Taken {
    fn wanting(self, wants: Wants) -> Taken {
        Taken {
            plan: self.plan,
            wants,
        }
    }

    fn take_sheet(self, at: usize) -> Result<Taken, Wrong> {
        if self.plan.sheet.is_some() {
            return fails(Fault::Second, at);
        }
        let sheet = Some(at);
        let plan = Plan { sheet, ..self.plan };
        Ok(Taken { plan, ..self })
    }

    // An option that takes a FILE, which is given once.
    fn want_file(self, before: Option<usize>, wants: Wants, at: usize) -> Result<Taken, Wrong> {
        if before.is_some() {
            return fails(Fault::Again, at);
        }
        Ok(self.wanting(wants))
    }

    fn allow(self, at: usize) -> Result<Taken, Wrong> {
        if self.plan.allowed {
            return fails(Fault::Again, at);
        }
        let plan = Plan {
            allowed: true,
            ..self.plan
        };
        Ok(Taken { plan, ..self })
    }

    fn take_option(self, w: Word, at: usize) -> Result<Taken, Wrong> {
        match w {
            Word::Record => self.want_file(self.plan.record, Wants::Record, at),
            Word::Seeds => self.want_file(self.plan.seeds, Wants::Seeds, at),
            Word::AllowEmpty => self.allow(at),
            _ => no_name(w, at, Fault::Unknown, at),
        }
    }

    fn take_any(self, verb: Verb, w: Word, at: usize) -> Result<Taken, Wrong> {
        match w {
            Word::Name => self.take_sheet(at),
            Word::Dashes => Ok(self.wanting(Wants::Sheet)),
            _ => match verb {
                Verb::Job => self.take_option(w, at),
                Verb::Tokens => no_name(w, at, Fault::Unknown, at),
            },
        }
    }

    // The FILE of an option.
    fn take_file(self, plan: Plan, w: Word, at: usize) -> Result<Taken, Wrong> {
        match w {
            Word::Name => Ok(Taken {
                plan,
                wants: Wants::Anything,
            }),
            _ => no_name(w, at, Fault::NoFile, at.saturating_sub(1)),
        }
    }

    // Behind `--` every word is a name.
    fn take_last(self, w: Word, at: usize) -> Result<Taken, Wrong> {
        match w {
            Word::Empty => fails(Fault::Empty, at),
            Word::Long => fails(Fault::Long, at),
            Word::NoText { .. } => fails(Fault::NoText, at),
            _ => self.take_sheet(at),
        }
    }

    // One word more.
    fn take_word(self, rt: &HostRuntime, verb: Verb, at: usize) -> Result<Taken, Wrong> {
        let w = word_at(rt, at);
        let named = Some(at);
        match self.wants {
            Wants::Anything => self.take_any(verb, w, at),
            Wants::Record => self.take_file(
                Plan {
                    record: named,
                    ..self.plan
                },
                w,
                at,
            ),
            Wants::Seeds => self.take_file(
                Plan {
                    seeds: named,
                    ..self.plan
                },
                w,
                at,
            ),
            Wants::Sheet => self.take_last(w, at),
        }
    }
}

// A word that is no name, where a name must stand.
fn no_name(w: Word, at: usize, other: Fault, other_at: usize) -> Result<Taken, Wrong> {
    match w {
        Word::Empty => fails(Fault::Empty, at),
        Word::Long => fails(Fault::Long, at),
        Word::NoText { dash: false } => fails(Fault::NoText, at),
        Word::Help => fails(Fault::Help, at),
        _ => fails(other, other_at),
    }
}

fn is_there(rt: &HostRuntime, at: usize) -> bool {
    match rt.arg(at, &mut [0u8; 1]) {
        Ok(_) => true,
        Err(FillError::TooLong) => true,
        Err(FillError::NotPresent) => false,
    }
}

// How many words the program was started with, its own name among them.
pub fn count(rt: &HostRuntime) -> usize {
    for i in 0..usize::MAX {
        if !is_there(rt, i) {
            return i;
        }
    }
    usize::MAX
}

// The words from the second on: the first is `job` or `tokens`.
pub fn read_arguments(rt: &HostRuntime, verb: Verb) -> Result<Plan, Wrong> {
    let count = count(rt);
    let mut taken = Taken {
        plan: Plan {
            sheet: None,
            record: None,
            seeds: None,
            allowed: false,
        },
        wants: Wants::Anything,
    };
    for at in 2..count {
        taken = taken.take_word(rt, verb, at)?;
    }
    match taken.wants {
        Wants::Record | Wants::Seeds => fails(Fault::NoFile, count.saturating_sub(1)),
        _ => Ok(taken.plan),
    }
}

// A word of the command line, by its number; none where it is missing or has more bytes than the space.
pub fn copy_word<'a>(rt: &HostRuntime, at: usize, space: &'a mut [u8]) -> Option<&'a [u8]>
    ensures { IfSome result (λ w. length w.now ≤ length space.old) }
{
    let n = rt.arg(at, space).ok()?;
    Some(&space[..n])
}

// The name of a file that a word is; none for `-`, which is standard input or output.
pub fn name_at<'a>(
    rt: &HostRuntime,
    at: Option<usize>,
    space: &'a mut [u8; MOST_WORD],
) -> Option<&'a str>
    ensures { IfSome result (λ w. length w.now ≤ 4_096) }
{
    let word = copy_word(rt, at?, space)?;
    let name = from_utf8(word).ok()?;
    if name == "-" { None } else { Some(name) }
}
