// The validity pass: well-formed UTF-8 without NUL, or refusal 2 or 3 with its mark.
#![tactic(auto)]

ghost use Rattle.std.specs.Prelude.{◌≡◌, ◌+◌, ◌-◌, ◌<◌, ◌≤◌, drop, get_or, length, take};
ghost use Rattle.yaml_text.specs.Utf8.{first};
ghost use Rattle.yaml_text.specs.Mark.{origin};
ghost use Rattle.yaml_text.specs.Decode.{decode};
ghost use Rattle.chars.specs.Ascii.{low};
ghost use Rattle.chars.specs.Each.{all_of};
ghost use Rattle.validity.specs.Checked.{checked};
ghost use Rattle.validity.specs.Sound.{PassesTo, good_len, sound};

use chars::block::{Ascii, all_of};
use chars::mark::{Place, break_length};
use chars::refuse::refuse;
use utf8::{byte, char_at, four_bytes, lead_len, three_bytes, two_bytes};
use yaml_text::{Decoded, Refusal};

// How many bytes a decoded character other than NUL takes.
#[tactic(auto, using(crate::proofs::Lengths::lengths))]
fn good_len(d: Decoded) -> Option<usize>
    ensures { result ≡ good_len d }
{
    match d {
        Decoded::Char { code, len } => { if code == 0 { None } else { Some(len) } }
        Decoded::Ill | Decoded::End => None,
    }
}

// char_len where the byte is from 128 up. By branches on what it leads, so that the next turn does not wait for the code point.
#[tactic(auto, using(utf8::proofs::Laws::by_lead, utf8::proofs::Laws::lone))]
fn long_len(s: &[u8], at: usize) -> Option<usize>
    requires { (at < length s.now) × (128 ≤ get_or s.now at 0) }
    ensures { result ≡ good_len (first (drop at s.now)) }
{
    let a = s[at];
    let b = byte(s, at + 1);
    match lead_len(a) {
        0 => None,
        2 => good_len(two_bytes(a, b)),
        3 => good_len(three_bytes(a, b, byte(s, at + 2))),
        _ => good_len(four_bytes(a, b, byte(s, at + 2), byte(s, at + 3))),
    }
}

// How many bytes the character other than NUL takes that begins at a place.
#[tactic(auto, using(crate::proofs::Lengths::lengths))]
fn char_len(s: &[u8], at: usize) -> Option<usize>
    requires { at < length s.now }
    ensures { result ≡ good_len (first (drop at s.now)) }
{
    match s[at] {
        0 => None,
        1..=127 => Some(1),
        _ => long_len(s, at),
    }
}

// Goes on by characters from `at` until `upto`, or stops before it where no character other than NUL begins.
// By hand: a step is a character of one to four bytes.
#[tactic(auto, using(crate::specs::Sound::past, crate::specs::Sound::stops))]
fn go_slow(s: &[u8], at: usize, upto: usize) -> usize
    requires { (at < upto) × (upto ≤ length s.now) }
    ensures { PassesTo s.now upto at result }
{
    let mut i = at;
    while i < upto {
        let Some(n) = char_len(s, i) else {
            return i;
        };
        i += n;
    }
    i
}

// Whether the block from `at` to `e` is ASCII without NUL. Where its first byte is not, the others are not looked at.
#[tactic(auto, using(chars::specs::Each::first_out, crate::proofs::Blocks::high))]
fn is_ascii(s: &[u8], at: usize, e: usize) -> bool
    requires { (at < e) × (e ≤ length s.now) × (e ≤ at + 64) }
    ensures { result ≡ all_of low (take (e - at) (drop at s.now)) }
{
    if 127 < s[at] {
        return false;
    }
    all_of::<Ascii>(&s[at..e])
}

// Whether a text is well-formed without NUL: by blocks, and by characters only where a block is not plain. A character may end behind its block,
// so the next block begins where that one ended.
fn is_sound(s: &[u8]) -> bool
    ensures { result ≡ sound s.now }
{
    let mut at = 0;
    while at < s.len() {
        let e = s.len().min(at + 64);
        if is_ascii(s, at, e) {
            at = e;
        } else {
            let i = go_slow(s, at, e);
            if i < e {
                return false;
            }
            at = i;
        }
    }
    true
}

// The first refusal of a text, by a second pass that moves the mark. By hand: a step is a break or a character.
fn first_refusal(s: &[u8]) -> Result<(), Refusal>
    requires { length s.now ≤ 1_048_576 }
    ensures { result ≡ checked (decode 0 origin s.now) }
{
    let mut p = Place::start();
    while p.at < s.len() {
        let at = p.at;
        let n = break_length(s, at);
        if n != 0 {
            p = p.skip_linebreak(n);
            continue;
        }
        let d = char_at(s, at);
        let Decoded::Char { code, len } = d else {
            return refuse(2, p.mark);
        };
        if code == 0 {
            return refuse(3, p.mark);
        }
        p = p.skip_non_blank(len);
    }
    Ok(())
}

// Whether a text may be scanned: refusal 2 or 3, whichever stands earlier.
#[tactic(auto, using(crate::proofs::Soundness::passes_sound))]
pub fn check_text(s: &[u8]) -> Result<(), Refusal>
    requires { length s.now ≤ 1_048_576 }
    ensures { result ≡ checked (decode 0 origin s.now) }
{
    if is_sound(s) {
        return Ok(());
    }
    first_refusal(s)
}
