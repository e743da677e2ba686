// A record of the pass, stored with what goes in before it.
ghost use Rattle.std.specs.Prelude.{◌≡◌, ◌*◌, ◌+◌, ◌-◌, ◌<◌, ◌^◌, ◌≤◌, length};
ghost use Rattle.std.proofs.lemmas.List.Edits.{sets};
ghost use Rattle.yaml_lexeme.specs.Record.{number_of, record_words};
ghost use Rattle.records.specs.Note.{empty_at};
ghost use Rattle.records.specs.Noted.{noted_number};
ghost use Rattle.sink.specs.Settle.{before, block, count, extra};

use records::noted::Noted;
use records::{RECORD_WORDS, empty_at, note_in, store, without_note};
use yaml_lexeme::Kind;

// Stores an empty record at the start mark of the record x in slot n.
fn put_empty(words: &mut [u32], n: usize, kind: Kind, x: [u32; RECORD_WORDS])
    requires { (n * record_words + record_words ≤ length words.old) × (n < 2 ^ 32) }
    ensures { words.new ≡ sets words.old (n * record_words) (empty_at (number_of kind) x) }
{
    store(words, n * RECORD_WORDS, &empty_at(kind, x));
}

// Stores what goes in before the record x, so that it ends before slot j; where it begins.
fn put_before(words: &mut [u32], j: usize, n: Noted, x: [u32; RECORD_WORDS]) -> usize
    requires { (extra (noted_number n) ≤ j) × (j * record_words ≤ length words.old) × (j < 2 ^ 32) }
    ensures { (result ≡ j - extra (noted_number n)) × (words.new ≡ sets words.old (result * record_words) (before (noted_number n) x)) }
{
    let Some(first) = n.first() else {
        return j;
    };
    let Some(second) = n.rest().first() else {
        put_empty(words, j - 1, first, x);
        return j - 1;
    };
    put_empty(words, j - 2, first, x);
    put_empty(words, j - 1, second, x);
    j - 2
}

// The same with the record itself.
pub(crate) fn put_block(words: &mut [u32], j: usize, x: [u32; RECORD_WORDS]) -> usize
    requires { (length x ≡ record_words) × (count x ≤ j) × (j * record_words ≤ length words.old) × (j < 2 ^ 32) }
    ensures { (result ≡ j - count x) × (words.new ≡ sets words.old (result * record_words) (block x)) }
{
    let last = j - 1;
    let k = put_before(words, last, Noted::from(note_in(x)), x);
    store(words, last * RECORD_WORDS, &without_note(x));
    k
}
