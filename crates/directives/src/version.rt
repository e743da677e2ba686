// %YAML (12 to 14).
ghost use Rattle.std.specs.Prelude.{◌≤◌, drop, ℕ};
ghost use Rattle.yaml_text.specs.Utf8.{chars};
ghost use Rattle.yaml_lexeme.specs.Directive.{version_digits, version_directive, version_number};
ghost use Rattle.chars.specs.View.{Stands, view};
ghost use Rattle.reading.specs.Answers.{ReaderAnswers};
ghost use Rattle.directives.specs.Version.{Numbers};

use chars::class::is_digit;
use chars::code::ZERO;
use chars::mark::Place;
use chars::refuse::refuse;
use gaps::skip_blanks;
use reading::Lexeme;
use utf8::byte;
use yaml_lexeme::Kind;
use yaml_text::{Mark, Refusal};

// A number with the place behind it.
#[derive(Clone, Copy)]
struct Numbered {
    value: u32,
    place: Place,
}

// 14: a tenth digit.
fn version_digits(text: &[u8], start: Mark, from: Place) -> Result<Numbered, Refusal>
    requires { Stands text.now from }
    ensures { Numbers text.now from result (version_digits start 0 0 from.mark (chars (drop from.at text.now))) }
{
    let mut place = from;
    let mut value: u32 = 0;
    for _digits in 0..9u32 {
        let c = byte(text, place.at) as u32;
        if !is_digit(c) {
            return Ok(Numbered { value, place });
        }
        value = value * 10 + (c - ZERO);
        place = place.skip_blank();
    }
    if is_digit(byte(text, place.at) as u32) {
        return refuse(14, start);
    }
    Ok(Numbered { value, place })
}

// 12: no digit.
fn version_number(text: &[u8], start: Mark, p: Place) -> Result<Numbered, Refusal>
    requires { Stands text.now p }
    ensures { Numbers text.now p result (version_number start (view text.now p)) }
{
    if !is_digit(byte(text, p.at) as u32) {
        return refuse(12, start);
    }
    version_digits(text, start, p)
}

// Behind its name. 13: no '.'.
pub fn version_directive(text: &[u8], start: Mark, p: Place) -> Result<Lexeme, Refusal>
    requires { Stands text.now p × (1 ≤ p.at) }
    ensures { (used : ℕ) → ReaderAnswers text.now used result (version_directive start (view text.now p)) }
{
    let major = version_number(text, start, skip_blanks(text, p))?;
    let dot = major.place;
    if byte(text, dot.at) != b'.' {
        return refuse(13, start);
    }
    let minor = version_number(text, start, dot.skip_blank())?;
    let kind = Kind::VersionDirective {
        major: major.value,
        minor: minor.value,
    };
    Ok(Lexeme::new(kind, start, minor.place.mark, minor.place))
}
