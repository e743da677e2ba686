// The first token that waits is given; and before a step the one slot that may wait moves to the front.
ghost use Rattle.std.specs.Prelude.{◌*◌, ◌+◌, ◌≤◌, ◌≡◌, eqb, length};
ghost use Rattle.yaml_lexeme.specs.Record.{record_words};
ghost use Rattle.yaml_stream.specs.Stream.{least_records};
ghost use Rattle.records.specs.Note.{note_in};
ghost use Rattle.stream.specs.Words.{Gives, front_held, front_words, record_from, token_words, words_left};

use crate::LEAST_RECORDS;
use driver::held::{BASE, COUNTS, HELD_WORDS, SLOT};
use records::noted::Noted;
use records::{RECORD_WORDS, empty_at, load, note_in, set_note, store};

// The first token of the record that begins at `at`; whether it was its own.
#[tactic(auto, using(crate::proofs::Lends::give_own))]
fn give(words: &mut [u32], at: usize, token: &mut [u32; RECORD_WORDS]) -> bool
    requires { at + record_words ≤ length words.old }
    ensures { (result ≡ eqb (note_in (record_from words.old at)) 0) × (token.new ≡ token_words (record_from words.old at)) × (words.new ≡ words_left words.old at (note_in (record_from words.old at))) }
{
    let x = load(words, at);
    let note = Noted::from(note_in(x));
    let Some(kind) = note.first() else {
        *token = x;
        return true;
    };
    *token = empty_at(kind, x);
    set_note(words, at, note.rest());
    false
}

// The first token that waits.
#[tactic(auto, using(crate::proofs::Lends::slot_room, stacks::specs::Bit::bit_low))]
pub(crate) fn give_first(
    held: &mut [u32; HELD_WORDS],
    words: &mut [u32],
    token: &mut [u32; RECORD_WORDS],
)
    requires { least_records * record_words ≤ length words.old }
    ensures { Gives held.old words.old held.new words.new token.new }
{
    let slot = held[SLOT].min(LEAST_RECORDS as u32 - 1);
    let own = give(words, slot as usize * RECORD_WORDS, token);
    held[SLOT] = slot + own as u32;
}

// The slot that may wait, and its number.
#[tactic(auto, using(crate::proofs::Lends::to_front_rules))]
pub(crate) fn to_front(held: &mut [u32; HELD_WORDS], words: &mut [u32])
    requires { least_records * record_words ≤ length words.old }
    ensures { (held.new ≡ front_held held.old) × (words.new ≡ front_words held.old words.old) }
{
    let slot = held[SLOT].min(LEAST_RECORDS as u32 - 1);
    let base = held[BASE].min(1_073_741_824) + slot;
    held[BASE] = base;
    held[SLOT] = 0;
    if base < held[COUNTS] {
        let x = load(words, slot as usize * RECORD_WORDS);
        store(words, 0, &x);
    }
}
