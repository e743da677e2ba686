// Writing into lent rooms. A writer whose room is full goes on counting and stops storing: a store past the end changes nothing.
#![tactic(auto)]

ghost use Rattle.std.specs.Prelude.{◌≡◌, ◌%◌, ◌+◌, ◌-◌, ◌^◌, ◌<◌, length, set};
ghost use Rattle.std.proofs.lemmas.List.Edits.{sets};
ghost use Rattle.yaml_text.specs.Utf8.{char_bytes};
ghost use Rattle.rooms.specs.Room.{filled};

// A count as a word of a record. By hand: no conversion of the library's wraps, and a count may be any.
pub fn as_word(n: usize) -> u32
    ensures { result ≡ n % 2 ^ 32 }
{
    (n % 4294967296) as u32
}

// Stores a byte.
pub fn put(out: &mut [u8], n: usize, b: u8)
    ensures { out.new ≡ set out.old n b }
{
    if n < out.len() {
        out[n] = b;
    }
}

// Stores the items of s from n on, as far as there is room. Item by item: the library's copy calls memmove, which a caller in C would have to bring.
#[tactic(auto, using(crate::specs::Room::sets_out))]
pub fn copy<T: Copy>(out: &mut [T], n: usize, s: &[T])
    ensures { out.new ≡ sets out.old n s.now }
{
    if n < out.len() {
        let count = s.len().min(out.len() - n);
        for i in 0..count {
            out[n + i] = s[i];
        }
    }
}

// Stores the last six bits of v as a byte that goes on with a character.
fn put_tail(out: &mut [u8], n: usize, v: u32)
    ensures { out.new ≡ set out.old n (128 + v % 64) }
{
    put(out, n, (128 + v % 64) as u8);
}

// Stores the bytes of a character from n on; where the next one goes. By hand: the library's encoder takes no surrogate, and here any number may come.
#[tactic(auto, using(crate::proofs::Bytes::by_size))]
pub fn put_char(out: &mut [u8], n: usize, c: u32) -> usize
    requires { (n < 2 ^ 62) × (c < 0x110000) }
    ensures { (out.new ≡ sets out.old n (char_bytes c)) × (result ≡ n + length (char_bytes c)) }
{
    if c < 0x80 {
        put(out, n, c as u8);
        return n + 1;
    }
    if c < 0x800 {
        put(out, n, (192 + c / 64) as u8);
        put_tail(out, n + 1, c);
        return n + 2;
    }
    if c < 0x10000 {
        put(out, n, (224 + c / 4096) as u8);
        put_tail(out, n + 1, c / 64);
        put_tail(out, n + 2, c);
        return n + 3;
    }
    put(out, n, (240 + c / 262144) as u8);
    put_tail(out, n + 1, c / 4096);
    put_tail(out, n + 2, c / 64);
    put_tail(out, n + 3, c);
    n + 4
}

// What a room holds: a number.
pub trait Number: Copy {
    ghost ZERO: { Self };

    const ZERO: Self;

    ghost whole: { (x y : Self) → Self.is_clone x y → y ≡ x };

    ghost free: { (x : Self) → Self.is_infallible x };
}

impl Number for u8 {
    ghost ZERO = { 0 };

    const ZERO: u8 = 0;

    ghost whole = { λ x y e. e };

    ghost free = { λ x. tt };
}

impl Number for u32 {
    ghost ZERO = { 0 };

    const ZERO: u32 = 0;

    ghost whole = { λ x y e. e };

    ghost free = { λ x. tt };
}

// Zeros from n on.
pub fn clear_from<T: Number>(out: &mut [T], n: usize)
    ensures { out.new ≡ filled T.ZERO out.old n }
{
    if n < out.len() {
        out[n..].fill(T::ZERO);
    }
}
