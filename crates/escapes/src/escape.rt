// The escapes of double quotes (37 to 39).
ghost use Rattle.std.specs.Prelude.{◌≡◌, ◌+◌, ◌≤◌, drop, length};
ghost use Rattle.yaml_text.specs.Utf8.{chars};
ghost use Rattle.yaml_lexeme.specs.Escape.{escape, named};
ghost use Rattle.chars.specs.View.{Stands};
ghost use Rattle.escapes.specs.Escaped.{Escapes};
ghost use Rattle.escapes.specs.Parts.{Letter};

use crate::answer::Escaped;
use crate::hex::hex_number;
use chars::code::{
    BACKSLASH, CARRIAGE_RETURN, DOUBLE_QUOTE, LINE_FEED, LOWER_A, LOWER_B, LOWER_E, LOWER_F,
    LOWER_N, LOWER_R, LOWER_T, LOWER_U, LOWER_V, LOWER_X, SLASH, SPACE, TAB, UNDERSCORE, UPPER_L,
    UPPER_N, UPPER_P, UPPER_U, ZERO,
};
use chars::mark::Place;
use chars::refuse::refuse;
use utf8::{is_scalar, look};
use yaml_lexeme::Named;
use yaml_text::{Mark, Refusal};

// What a letter behind the backslash is.
#[tactic(auto, unfolding(yaml_lexeme::specs::Escape::named, yaml_lexeme::specs::Table::looked_up))]
fn letter(c: u32) -> Named
    ensures { (result ≡ named c) × Letter c result }
{
    match c {
        TAB => Named::Stands(TAB),
        SPACE => Named::Stands(SPACE),
        DOUBLE_QUOTE => Named::Stands(DOUBLE_QUOTE),
        SLASH => Named::Stands(SLASH),
        ZERO => Named::Stands(0),
        UPPER_L => Named::Stands(0x2028),
        UPPER_N => Named::Stands(0x85),
        UPPER_P => Named::Stands(0x2029),
        UPPER_U => Named::Digits(8),
        BACKSLASH => Named::Stands(BACKSLASH),
        UNDERSCORE => Named::Stands(0xA0),
        LOWER_A => Named::Stands(7),
        LOWER_B => Named::Stands(8),
        LOWER_E => Named::Stands(27),
        LOWER_F => Named::Stands(12),
        LOWER_N => Named::Stands(LINE_FEED),
        LOWER_R => Named::Stands(CARRIAGE_RETURN),
        LOWER_T => Named::Stands(TAB),
        LOWER_U => Named::Digits(4),
        LOWER_V => Named::Stands(11),
        LOWER_X => Named::Digits(2),
        _ => Named::Unknown,
    }
}

// The escape whose backslash stands at p.
pub fn escape(text: &[u8], p: Place, start: Mark) -> Result<Escaped, Refusal>
    requires { Stands text.now p × (p.at + 1 ≤ length text.now) }
    ensures { Escapes text.now p result (escape start (chars (drop (p.at + 1) text.now))) }
{
    let at = p.at + 1;
    let l = letter(look(text, at));
    match l {
        Named::Stands(code) => {
            let next = p.skip_n_non_blank(2);
            Ok(Escaped { code, next })
        }
        Named::Digits(n) => {
            let Some(code) = hex_number(text, at + 1, n) else {
                return refuse(38, start);
            };
            if !is_scalar(0, code) {
                return refuse(39, start);
            }
            let next = p.skip_n_non_blank(n + 2);
            Ok(Escaped { code, next })
        }
        Named::Unknown => refuse(37, start),
    }
}
