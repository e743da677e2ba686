// Directives (10 to 19).
#![tactic(auto)]

ghost use Rattle.yaml_lexeme.specs.Directive.{directive_of, scan_directive};
ghost use Rattle.chars.specs.View.{view};
ghost use Rattle.reading.specs.Answers.{Reads};
ghost use Rattle.reading.specs.Reading.{Behind, Indicated, Lexes, first_at};
ghost use Rattle.directives.specs.Line.{LineEnds};
ghost use Rattle.directives.specs.Name.{NameAt, name_in};

use crate::reserved::reserved_directive;
use crate::tag::tag_directive;
use crate::version::version_directive;
use chars::class::{NonSpace, is_blank_or_breakz, is_breakz};
use chars::mark::{Place, skip_break};
use chars::refuse::refuse;
use gaps::blanks_and_comment;
use reading::{Lexeme, clear_refused};
use runs::run_of;
use utf8::look;
use yaml_text::{Mark, Refusal};

mod reserved;
mod tag;
mod version;

// The names that mean something.
const YAML: &[u8] = b"YAML";

const TAG: &[u8] = b"TAG";

// By its name, which ends at p: YAML, TAG, any other.
fn directive_of(
    text: &[u8],
    start: Mark,
    p: Place,
    used: u32,
    out: &mut [u8],
) -> Result<Lexeme, Refusal>
    requires { NameAt text.now start used p }
    ensures { Reads text.now out.old out.new used result (directive_of start (name_in text.now start).text (view text.now p)) }
{
    let name = &text[1..p.at];
    if name == YAML {
        return version_directive(text, start, p);
    }
    if name == TAG {
        return tag_directive(text, start, p, used, out);
    }
    Ok(reserved_directive(text, start, p, used, out))
}

// The rest of a directive's line, and past it. 15: no comment or break.
fn line_end(text: &[u8], start: Mark, l: Lexeme) -> Result<Lexeme, Refusal>
    requires { Behind text.now l }
    ensures { LineEnds text.now start l result }
{
    let e = blanks_and_comment(text, l.next)?;
    if !is_breakz(look(text, e.at)) {
        return refuse(15, start);
    }
    let next = skip_break(text, e);
    Ok(Lexeme {
        token: l.token,
        next,
    })
}

// The directive, of which a refusal may leave a part in the room. 10: no name; 11: the name is stopped by a BOM.
fn read_directive(text: &[u8], start: Mark, used: u32, out: &mut [u8]) -> Result<Lexeme, Refusal>
    requires { Indicated text.now start used }
    ensures { Reads text.now out.old out.new used result (scan_directive (view text.now (first_at start))) }
{
    let name = Place::first_at(start).skip_blank();
    let p = run_of::<NonSpace>(text, name);
    if p.at == 1 {
        return refuse(10, name.mark);
    }
    if !is_blank_or_breakz(look(text, p.at)) {
        return refuse(11, name.mark);
    }
    let l = directive_of(text, start, p, used, out)?;
    line_end(text, start, l)
}

// From its '%', and past its line.
pub fn scan_directive(
    text: &[u8],
    start: Mark,
    used: u32,
    out: &mut [u8],
) -> Result<Lexeme, Refusal>
    requires { Indicated text.now start used }
    ensures { Lexes text.now out.old out.new used result (scan_directive (view text.now (first_at start))) }
{
    let r = read_directive(text, start, used, out);
    clear_refused(r, out)
}
