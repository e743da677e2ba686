// %TAG (16 to 19; 20 to 24).
ghost use Rattle.std.specs.Prelude.{◌||◌, ◌≡◌, ◌≤◌, eqb};
ghost use Rattle.yaml_text.specs.Char.{'!'};
ghost use Rattle.yaml_text.specs.Class.{is_tag};
ghost use Rattle.yaml_lexeme.specs.declared.Kind.TheVariants.{TagDirective};
ghost use Rattle.yaml_lexeme.specs.Directive.{tag_directive, tag_handle};
ghost use Rattle.chars.specs.View.{Stands, view};
ghost use Rattle.reading.specs.Answers.{Reads};
ghost use Rattle.reading.specs.Reading.{ReaderGiven};
ghost use Rattle.directives.specs.Front.{HoldsTexts};
ghost use Rattle.directives.specs.Tag.{Handles, prefix_run};

use chars::class::{Alpha, UriChar, is_blank_or_breakz, is_tag_char};
use chars::code::EXCLAMATION;
use chars::mark::Place;
use chars::refuse::refuse;
use gaps::skip_blanks;
use reading::{Lexeme, texts_at};
use rooms::copy;
use runs::{run_of, uri_run};
use utf8::{byte, look};
use yaml_lexeme::Kind;
use yaml_text::{Mark, Refusal};

// The place behind the handle. 16: no '!'; 17: not closed.
fn tag_handle(text: &[u8], start: Mark, p: Place) -> Result<Place, Refusal>
    requires { Stands text.now p }
    ensures { Handles text.now p result (tag_handle start (view text.now p)) }
{
    if byte(text, p.at) != b'!' {
        return refuse(16, start);
    }
    let h = run_of::<Alpha>(text, p.skip_blank());
    if byte(text, h.at) == b'!' {
        return Ok(h.skip_blank());
    }
    if h.at == p.at + 1 {
        return Ok(h);
    }
    refuse(17, start)
}

// Whether a prefix begins with the character c.
fn begins_prefix(c: u32) -> bool
    ensures { result ≡ (eqb c '!' || is_tag c) }
{
    (c == EXCLAMATION) | is_tag_char(c)
}

// The rest, behind the handle of n bytes, which was written. 18: a bad first character; 19: no blank after the prefix.
fn read_prefix(
    text: &[u8],
    start: Mark,
    p: Place,
    n: usize,
    used: u32,
    out: &mut [u8],
) -> Result<Lexeme, Refusal>
    requires { ReaderGiven text.now start used × Stands text.now p × (n ≤ p.at) × (1 ≤ p.at) }
    ensures { HoldsTexts TagDirective text.now out.old out.new start used n result (prefix_run start (view text.now p)) }
{
    let q = skip_blanks(text, p);
    if !begins_prefix(byte(text, q.at) as u32) {
        return refuse(18, start);
    }
    let w = uri_run::<UriChar>(text, q, start, n, out)?;
    let e = w.place;
    if !is_blank_or_breakz(look(text, e.at)) {
        return refuse(19, start);
    }
    let (handle, prefix) = texts_at(used, n, w.count - n);
    Ok(Lexeme::new(Kind::TagDirective { handle, prefix }, start, e.mark, e))
}

// Behind its name.
pub fn tag_directive(
    text: &[u8],
    start: Mark,
    p: Place,
    used: u32,
    out: &mut [u8],
) -> Result<Lexeme, Refusal>
    requires { ReaderGiven text.now start used × Stands text.now p × (1 ≤ p.at) }
    ensures { Reads text.now out.old out.new used result (tag_directive start (view text.now p)) }
{
    let q = skip_blanks(text, p);
    let e = tag_handle(text, start, q)?;
    let handle = &text[q.at..e.at];
    copy(out, 0, handle);
    read_prefix(text, start, e, handle.len(), used, out)
}
