// The percent escapes of tags and %TAG prefixes (21 to 24).
ghost use Rattle.std.specs.Prelude.{◌≤◌, drop, length};
ghost use Rattle.yaml_text.specs.Utf8.{chars};
ghost use Rattle.yaml_lexeme.specs.Tag.{percent};
ghost use Rattle.chars.specs.View.{Stands};
ghost use Rattle.escapes.specs.Escaped.{Escapes};
ghost use Rattle.escapes.specs.Parts.{Trails};

use crate::answer::Escaped;
use crate::hex::octet;
use chars::mark::Place;
use chars::refuse::refuse;
use utf8::{char_at, is_tail, lead_len};
use yaml_text::{Decoded, Mark, Refusal};

// Fills out with the trailing octets that are written at a place, up to one that is missing (21) or goes on with no character (23).
fn trailing(text: &[u8], at: usize, start: Mark, out: &mut [u8]) -> Result<(), Refusal>
    requires { (at ≤ length text.now) × (length out.old ≤ 3) }
    ensures { Trails text.now at start out.old out.new result }
{
    for i in 0..out.len() {
        let Some(b) = octet(text, at + 3 * i) else {
            return refuse(21, start);
        };
        if !is_tail(b) {
            return refuse(23, start);
        }
        out[i] = b;
    }
    Ok(())
}

// The escape whose percent sign stands at p.
pub fn percent(text: &[u8], p: Place, start: Mark) -> Result<Escaped, Refusal>
    requires { Stands text.now p }
    ensures { Escapes text.now p result (percent start (chars (drop p.at text.now))) }
{
    let at = p.at;
    let Some(a) = octet(text, at) else {
        return refuse(21, start);
    };
    let n = lead_len(a);
    if n == 0 {
        return refuse(22, start);
    }
    let mut bytes = [a, 0, 0, 0];
    let len = n as usize;
    trailing(text, at + 3, start, &mut bytes[1..len])?;
    let d = char_at(&bytes[..len], 0);
    let Decoded::Char { code, len: _ } = d else {
        return refuse(24, start);
    };
    let next = p.skip_n_non_blank(3 * n);
    Ok(Escaped { code, next })
}
