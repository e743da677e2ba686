// Blocks of bytes of a class. They are counted by a loop that has no exit and adds 0 or 1 to a byte, so that it is vectorised.
#![tactic(auto, unfolding(crate::specs::Each::one_of, crate::specs::Blocks::is_space, crate::specs::Blocks::ordinary))]

ghost use Rattle.std.specs.Prelude.{◌≤◌, ◌≡◌, ℕ, Bool, length};
ghost use Rattle.std.specs.List.{prefix_len};
ghost use Rattle.chars.specs.Ascii.{low};
ghost use Rattle.chars.specs.Blocks.{is_space, ordinary};
ghost use Rattle.chars.specs.Each.{Blocks, all_of, count_of, one_of};

pub trait ByteClass {
    ghost test: { ℕ → Bool };

    fn has(b: u8) -> bool
        ensures { result ≡ test b };
}

// From 1 to 127: a character other than NUL.
pub struct Ascii;

impl ByteClass for Ascii {
    ghost test = { low };

    fn has(b: u8) -> bool {
        (0 < b) & (b < 128)
    }
}

pub struct Space;

impl ByteClass for Space {
    ghost test = { is_space };

    fn has(b: u8) -> bool {
        b == b' '
    }
}

// Most characters of a plain scalar by far: neither a blank nor one at which it could end.
pub struct Ordinary;

impl ByteClass for Ordinary {
    ghost test = { ordinary };

    fn has(b: u8) -> bool {
        is_ordinary(b)
    }
}

pub fn is_ordinary(b: u8) -> bool
    ensures { result ≡ ordinary b }
{
    (b'-' <= b) & (b <= b'9') | (b';' <= b) & (b <= b'Z') | (b'^' <= b) & (b <= b'z')
}

// 1 for a byte of the class, else 0.
fn one_of<C: ByteClass>(b: u8) -> u8
    ensures { result ≡ one_of C.test b }
{
    u8::from(C::has(b))
}

// How many of at most 64 bytes are of the class.
#[tactic(auto, using(crate::specs::Each::count_more, crate::specs::Each::count_none, crate::specs::Each::one_most))]
fn count<C: ByteClass>(s: &[u8]) -> u8
    requires { length s.now ≤ 64 }
    ensures { result ≡ count_of C.test s.now }
{
    let mut n: u8 = 0;
    for b in s {
        n += one_of::<C>(*b);
    }
    n
}

// Whether all of at most 64 bytes are of the class.
pub fn all_of<C: ByteClass>(s: &[u8]) -> bool
    requires { length s.now ≤ 64 }
    ensures { result ≡ all_of C.test s.now }
{
    count::<C>(s) as usize == s.len()
}

// How many blocks in a row, from the first on, are of the class.
fn leading<C: ByteClass>(blocks: &[[u8; 16]]) -> usize
    ensures value { result ≡ prefix_len (all_of C.test) blocks.now }
    ensures within { result ≤ length blocks.now }
{
    blocks.iter().take_while(|b| all_of::<C>(*b)).count()
}

// Over blocks of 16 bytes of the class.
pub fn past_blocks<C: ByteClass>(text: &[u8], start: usize) -> usize
    requires { start ≤ length text.now }
    ensures { Blocks C.test text.now start result }
{
    let (blocks, _) = text[start..].as_chunks::<16>();
    start + 16 * leading::<C>(blocks)
}
