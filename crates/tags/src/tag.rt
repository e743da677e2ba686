// Tags.
ghost use Rattle.std.specs.Prelude.{◌≡◌, ◌&&◌, ◌||◌, get_or};
ghost use Rattle.yaml_text.specs.Char.{'!', '<'};
ghost use Rattle.yaml_text.specs.Class.{is_blank_or_breakz, is_flow};
ghost use Rattle.yaml_lexeme.specs.Tag.{handled, primary, scan_tag, tag_texts, verbatim};
ghost use Rattle.chars.specs.View.{view};
ghost use Rattle.reading.specs.Answers.{Reads};
ghost use Rattle.reading.specs.Reading.{Indicated, Lexes, first_at};
ghost use Rattle.tags.specs.Texts.{Lays, NameAt, Tagged, name_in};

use chars::class::{Alpha, TagChar, UriChar, is_blank_or_breakz, is_flow};
use chars::mark::Place;
use chars::refuse::refuse;
use reading::{Lexeme, clear_refused, texts_at};
use rooms::copy;
use runs::{run_of, uri_run};
use utf8::{byte, look};
use yaml_lexeme::Kind;
use yaml_text::{Mark, Refusal};

// The lengths of both texts, with the place behind them.
#[derive(Clone, Copy)]
struct Texts {
    one: usize,
    other: usize,
    place: Place,
}

// `!<x>`: first text empty, second x. 20: no '>'.
fn verbatim(text: &[u8], start: Mark, out: &mut [u8]) -> Result<Texts, Refusal>
    requires { Tagged text.now start × (get_or text.now 1 0 ≡ '<') }
    ensures { Lays text.now out.old out.new result (verbatim start (view text.now (first_at start))) }
{
    let first = Place::first_at(start);
    let x = uri_run::<UriChar>(text, first.skip_n_non_blank(2), start, 0, out)?;
    if byte(text, x.place.at) != b'>' {
        return refuse(20, start);
    }
    let place = x.place.skip_blank();
    Ok(Texts {
        one: 0,
        other: x.count,
        place,
    })
}

// `!!s`, `!h!s`: the handle up to its second mark at p, then s. 25: no suffix.
fn handled(text: &[u8], start: Mark, p: Place, out: &mut [u8]) -> Result<Texts, Refusal>
    requires { NameAt text.now start p × (get_or text.now p.at 0 ≡ '!') }
    ensures { Lays text.now out.old out.new result (handled start (name_in text.now start).text (view text.now p)) }
{
    let n = p.at + 1;
    copy(out, 0, &text[..n]);
    let s = uri_run::<TagChar>(text, p.skip_blank(), start, n, out)?;
    if s.count == n {
        return refuse(25, start);
    }
    Ok(Texts {
        one: n,
        other: s.count - n,
        place: s.place,
    })
}

// `!s`: `!`, then s, whose word characters end at p; `!` alone: first empty, second `!`.
fn primary(text: &[u8], start: Mark, p: Place, out: &mut [u8]) -> Result<Texts, Refusal>
    requires { NameAt text.now start p }
    ensures { Lays text.now out.old out.new result (primary start (name_in text.now start).text (view text.now p)) }
{
    let n = p.at;
    copy(out, 0, &text[..n]);
    let s = uri_run::<TagChar>(text, p, start, n, out)?;
    if s.count == 1 {
        return Ok(Texts {
            one: 0,
            other: 1,
            place: s.place,
        });
    }
    Ok(Texts {
        one: 1,
        other: s.count - 1,
        place: s.place,
    })
}

fn tag_texts(text: &[u8], start: Mark, out: &mut [u8]) -> Result<Texts, Refusal>
    requires { Tagged text.now start }
    ensures { Lays text.now out.old out.new result (tag_texts start (view text.now (first_at start))) }
{
    if byte(text, 1) == b'<' {
        return verbatim(text, start, out);
    }
    let first = Place::first_at(start);
    let p = run_of::<Alpha>(text, first.skip_blank());
    if byte(text, p.at) == b'!' {
        return handled(text, start, p, out);
    }
    primary(text, start, p, out)
}

// Whether a tag may end before the character c.
fn ends_tag(flow: bool, c: u32) -> bool
    ensures { result ≡ (is_blank_or_breakz c || (flow && is_flow c)) }
{
    is_blank_or_breakz(c) | (flow & is_flow(c))
}

// The tag, of which a refusal may leave a part in the room. 26: no end here.
fn read_tag(
    text: &[u8],
    start: Mark,
    flow: bool,
    used: u32,
    out: &mut [u8],
) -> Result<Lexeme, Refusal>
    requires { Indicated text.now start used × (get_or text.now 0 0 ≡ '!') }
    ensures { Reads text.now out.old out.new used result (scan_tag flow (view text.now (first_at start))) }
{
    let t = tag_texts(text, start, out)?;
    let end = t.place.mark;
    if !ends_tag(flow, look(text, t.place.at)) {
        return refuse(26, end);
    }
    let (handle, suffix) = texts_at(used, t.one, t.other);
    Ok(Lexeme::new(Kind::Tag { handle, suffix }, start, end, t.place))
}

// From its first mark.
pub fn scan_tag(
    text: &[u8],
    start: Mark,
    flow: bool,
    used: u32,
    out: &mut [u8],
) -> Result<Lexeme, Refusal>
    requires { Indicated text.now start used × (get_or text.now 0 0 ≡ '!') }
    ensures { Lexes text.now out.old out.new used result (scan_tag flow (view text.now (first_at start))) }
{
    let r = read_tag(text, start, flow, used, out);
    clear_refused(r, out)
}
