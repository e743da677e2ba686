// What character stands at a place of a text (RFC 3629).
#![tactic(auto, unfolding(yaml_text::specs::Utf8::is_tail, yaml_text::specs::Utf8::is_scalar, yaml_text::specs::Utf8::len_of, yaml_text::specs::Utf8::two, yaml_text::specs::Utf8::three, yaml_text::specs::Utf8::four))]

ghost use Rattle.std.specs.Prelude.{◌≡◌, ◌<◌, drop, get_or, length};
ghost use Rattle.yaml_text.specs.Utf8.{chars, first, four, is_scalar, is_tail, len_of, three, two};
ghost use Rattle.yaml_text.specs.Class.{peek};

use yaml_text::Decoded;

// The byte at a place, or 0 past the end.
pub fn byte(s: &[u8], at: usize) -> u8
    ensures { result ≡ get_or s.now at 0 }
{
    s.get(at).copied().unwrap_or(0)
}

// How many bytes the character of a lead byte takes, by its leading one bits, as 01 has it; 0: it leads none. A count as in the definition, since a
// reader that stands at a character moves on by it.
pub fn lead_len(b: u8) -> u32
    ensures { result ≡ len_of b }
{
    let n = u8::leading_zeros(!b);
    match n {
        0 => 1,
        2 => 2,
        3 => 3,
        4 => 4,
        _ => 0,
    }
}

// Whether a byte goes on with a character.
pub fn is_tail(b: u8) -> bool
    ensures { result ≡ is_tail b }
{
    matches!(b, 0x80..=0xbf)
}

// Whether c is a code point from lo up that is no surrogate.
pub fn is_scalar(lo: u32, c: u32) -> bool
    ensures { result ≡ is_scalar lo c }
{
    lo <= c && char::from_u32(c).is_some()
}

pub fn two_bytes(a: u8, b: u8) -> Decoded
    ensures { result ≡ two a b }
{
    let v = (a as u32) % 32 * 64 + (b as u32) % 64;
    if is_tail(b) && is_scalar(0x80, v) {
        return Decoded::Char { code: v, len: 2 };
    }
    Decoded::Ill
}

pub fn three_bytes(a: u8, b: u8, c: u8) -> Decoded
    ensures { result ≡ three a b c }
{
    let v = (a as u32) % 16 * 4096 + (b as u32) % 64 * 64 + (c as u32) % 64;
    if is_tail(b) && is_tail(c) && is_scalar(0x800, v) {
        return Decoded::Char { code: v, len: 3 };
    }
    Decoded::Ill
}

pub fn four_bytes(a: u8, b: u8, c: u8, d: u8) -> Decoded
    ensures { result ≡ four a b c d }
{
    let v = (a as u32) % 8 * 262144
        + (b as u32) % 64 * 4096
        + (c as u32) % 64 * 64
        + (d as u32) % 64;
    if is_tail(b) && is_tail(c) && is_tail(d) && is_scalar(0x10000, v) {
        return Decoded::Char { code: v, len: 4 };
    }
    Decoded::Ill
}

// What stands at a place within the text.
#[tactic(auto, using(crate::proofs::Laws::by_lead))]
fn long_char(s: &[u8], at: usize) -> Decoded
    requires { at < length s.now }
    ensures { result ≡ first (drop at s.now) }
{
    let a = s[at];
    let b = byte(s, at + 1);
    match lead_len(a) {
        0 => Decoded::Ill,
        1 => Decoded::Char {
            code: u32::from(a),
            len: 1,
        },
        2 => two_bytes(a, b),
        3 => three_bytes(a, b, byte(s, at + 2)),
        _ => four_bytes(a, b, byte(s, at + 2), byte(s, at + 3)),
    }
}

// What stands at a place: a character with its length, ill-formed bytes, or the end.
#[tactic(auto, using(crate::proofs::Laws::looks))]
pub fn char_at(s: &[u8], at: usize) -> Decoded
    ensures { result ≡ first (drop at s.now) }
{
    if s.len() <= at {
        return Decoded::End;
    }
    let a = s[at];
    if a < 128 {
        return Decoded::Char {
            code: u32::from(a),
            len: 1,
        };
    }
    long_char(s, at)
}

// The character at a place; 0 where none begins, as in the definition's `peek`: classes of characters hold the end of the text as 0.
#[tactic(auto, using(crate::proofs::Laws::looks))]
pub fn look(s: &[u8], at: usize) -> u32
    ensures { result ≡ peek (chars (drop at s.now)) 0 }
{
    if s.len() <= at {
        return 0;
    }
    let a = s[at];
    if a < 128 {
        return u32::from(a);
    }
    match long_char(s, at) {
        Decoded::Char { code, len: _ } => code,
        Decoded::Ill | Decoded::End => 0,
    }
}
