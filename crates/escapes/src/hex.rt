// Numbers in hexadecimal digits.
ghost use Rattle.std.specs.Prelude.{◌≤◌, length};
ghost use Rattle.escapes.specs.Parts.{NumberAt, OctetAt};

use chars::class::{as_hex, is_hex};
use utf8::byte;

// The value of the n hexadecimal digits at a place; none where they do not stand there.
pub fn hex_number(text: &[u8], at: usize, n: u32) -> Option<u32>
    requires { (at ≤ length text.now) × (n ≤ 8) }
    ensures { NumberAt text.now at n result }
{
    let mut v: u32 = 0;
    for i in 0..n {
        let c = byte(text, at + i as usize) as u32;
        if !is_hex(c) {
            return None;
        }
        v = v * 16 + as_hex(c);
    }
    Some(v)
}

// The octet that '%' and two hexadecimal digits at a place write.
pub fn octet(text: &[u8], at: usize) -> Option<u8>
    requires { at ≤ length text.now }
    ensures { OctetAt text.now at result }
{
    if byte(text, at) != b'%' {
        return None;
    }
    let v = hex_number(text, at + 1, 2)?;
    Some(v as u8)
}
