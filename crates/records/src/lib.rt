// Records: the words of a token, stored and read back, and notes on them.
#![tactic(auto)]

pub mod found;
pub mod noted;
pub mod token;

ghost use Rattle.std.specs.Prelude.{◌≡◌, ◌+◌, ◌<◌, ◌≤◌, drop, length, set, take};
ghost use Rattle.std.proofs.lemmas.List.Edits.{sets};
ghost use Rattle.yaml_lexeme.specs.Record.{number_of, record_words};
ghost use Rattle.records.specs.Note.{empty_at, note_in, noted_word, without_note};
ghost use Rattle.records.specs.Noted.{noted_number};

use crate::noted::Noted;
use crate::token::kind_number;
use yaml_lexeme::Kind;

// Words a record.
pub const RECORD_WORDS: usize = 12;

// Word 1 of a record with a note is the number of its kind and so many times the note.
const NOTE_BASE: u32 = 32;

// The words of the record that begins at `at`.
pub fn load(words: &[u32], at: usize) -> [u32; RECORD_WORDS]
    requires { at + record_words ≤ length words.now }
    ensures { result ≡ take record_words (drop at words.now) }
{
    let mut r = [0; RECORD_WORDS];
    r.copy_from_slice(&words[at..at + RECORD_WORDS]);
    r
}

// Words from `at` on, where they are known to fit: `copy` of rooms measures the room first.
// Word by word: the library's copy loads a record's words together before they are all stored, and each token waited for it.
pub fn store(words: &mut [u32], at: usize, r: &[u32])
    requires { at + length r.now ≤ length words.old }
    ensures { words.new ≡ sets words.old at r.now }
{
    for i in 0..r.len() {
        words[at + i] = r[i];
    }
}

// The note on the record x, by its number; `Noted` has what it stands for.
pub fn note_in(x: [u32; RECORD_WORDS]) -> u32
    ensures { result ≡ note_in x }
{
    x[0] / NOTE_BASE
}

// The record x without its note.
pub fn without_note(x: [u32; RECORD_WORDS]) -> [u32; RECORD_WORDS]
    ensures { result ≡ without_note x }
{
    let mut e = x;
    e[0] = x[0] % NOTE_BASE;
    e
}

// Sets the note on the record that begins at `at`.
pub fn set_note(words: &mut [u32], at: usize, note: Noted)
    requires { at < length words.old }
    ensures { words.new ≡ set words.old at (noted_word words.old at (noted_number note)) }
{
    words[at] = words[at] % NOTE_BASE + NOTE_BASE * note as u32;
}

// The record of an empty token of this kind at the start mark of the record x.
pub fn empty_at(kind: Kind, x: [u32; RECORD_WORDS]) -> [u32; RECORD_WORDS]
    ensures { result ≡ empty_at (number_of kind) x }
{
    [
        kind_number(kind),
        x[1],
        x[2],
        x[3],
        x[1],
        x[2],
        x[3],
        0,
        0,
        0,
        0,
        0,
    ]
}
