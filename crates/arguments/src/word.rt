// What a word looks like.
use std::env::FillError;
use std::rt::Env;
use std::str::from_utf8;

// A word has no more bytes.
pub const MOST_WORD: usize = 4096;

#[derive(Clone, Copy)]
pub(crate) enum Word {
    // Also `-`.
    Name,
    // `--`
    Dashes,
    Record,
    Seeds,
    AllowEmpty,
    Help,
    // Any other word that begins with '-'.
    Other,
    // A word that is not UTF-8, and begins with '-' or not: no file can be opened by it.
    NoText { dash: bool },
    Empty,
    // More than 4,096 bytes.
    Long,
}

fn option_of(s: &str) -> Word {
    match s {
        "--" => Word::Dashes,
        "--record" => Word::Record,
        "--seeds" => Word::Seeds,
        "--allow-empty" => Word::AllowEmpty,
        "--help" => Word::Help,
        "-" => Word::Name,
        _ => Word::Other,
    }
}

fn word_of(s: &[u8]) -> Word {
    if s.is_empty() {
        return Word::Empty;
    }
    let dash = s.starts_with(b"-");
    match from_utf8(s) {
        Ok(text) => if dash { option_of(text) } else { Word::Name },
        Err(_) => Word::NoText { dash },
    }
}

pub(crate) fn word_at(rt: &HostRuntime, i: usize) -> Word {
    let mut space = [0u8; MOST_WORD];
    match rt.arg(i, &mut space) {
        Ok(n) => word_of(&space[..n]),
        Err(FillError::TooLong) => Word::Long,
        Err(FillError::NotPresent) => Word::Long,
    }
}
