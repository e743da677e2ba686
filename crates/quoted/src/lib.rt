// Quoted scalars (33 to 40).
#![tactic(auto)]

ghost use Rattle.std.specs.Prelude.{◌*◌, ◌<◌, ◌^◌, ◌≤◌, ◌≡◌, length};
ghost use Rattle.yaml_lexeme.specs.Quoted.{fits_after, scan_flow_scalar};
ghost use Rattle.chars.specs.View.{Stands, view};
ghost use Rattle.reading.specs.Answers.{Reads};
ghost use Rattle.reading.specs.Reading.{Indicated, Lexes, first_at};
ghost use Rattle.quoted.specs.After.{Follows, held_after};
ghost use Rattle.quoted.specs.Advance.{RunEnds, quote_of};

mod fold;
mod turns;

use crate::fold::Mode;
use crate::turns::{Progress, Quote, Turned, quoted_turn};
use chars::class::is_breakz;
use chars::code::{CLOSE_BRACE, CLOSE_BRACKET, COLON, COMMA};
use chars::mark::Place;
use chars::pick::pick;
use chars::refuse::refuse;
use reading::{Lexeme, Written, clear_refused, text_at};
use utf8::look;
use yaml_lexeme::{Kind, Style};
use yaml_text::{Mark, Refusal};

// The scalar's text from behind its opening quote.
fn quoted_run(text: &[u8], q: Quote, out: &mut [u8]) -> Result<Written, Refusal>
    requires { Stands text.now (first_at q.start) × (1 ≤ length text.now) }
    ensures { RunEnds text.now q out.old out.new result }
{
    let first = Place::first_at(q.start);
    let mut t = Progress {
        count: 0,
        place: first.skip_blank(),
        mode: Mode::Chars,
    };
    loop {
        match quoted_turn(text, q, t, out)? {
            Turned::Goes(next) => {
                t = next;
            }
            Turned::Closes(w) => {
                return Ok(w);
            }
        }
    }
}

// 40: what may follow a quoted scalar.
#[tactic(auto, unfolding(yaml_lexeme::specs::Quoted::fits_after, yaml_text::specs::Class::among))]
fn fits_after(flow: bool, same: bool, c: u32) -> bool
    ensures { result ≡ fits_after flow same c }
{
    is_breakz(c)
        | flow & ((c == COMMA) | (c == CLOSE_BRACKET) | (c == CLOSE_BRACE))
        | (c == COLON) & (flow | same)
}

// What follows the closing quote, behind the text w.
fn after_quote(text: &[u8], q: Quote, flow: bool, w: Written, used: u32) -> Result<Lexeme, Refusal>
    requires { Stands text.now w.place × (1 ≤ w.place.at) × (w.count ≤ 3 * w.place.at) }
    ensures { Follows text.now result (held_after flow (quote_of q) used w.count (view text.now w.place)) }
{
    let e = gaps::blanks_and_comment(text, w.place)?;
    let m = e.mark;
    let start = q.start;
    if !fits_after(flow, start.line == m.line, look(text, e.at)) {
        return refuse(40, m);
    }
    let kind = Kind::Scalar {
        style: pick(q.single, Style::SingleQuoted, Style::DoubleQuoted),
        text: text_at(used, w.count),
    };
    Ok(Lexeme::new(kind, start, m, e))
}

// The scalar with what follows it; a refusal leaves in the lent bytes what was written before it.
fn read_scalar(
    text: &[u8],
    q: Quote,
    flow: bool,
    used: u32,
    out: &mut [u8],
) -> Result<Lexeme, Refusal>
    requires { Indicated text.now q.start used }
    ensures { Reads text.now out.old out.new used result (scan_flow_scalar flow q.single q.indent (view text.now (first_at q.start))) }
{
    let w = quoted_run(text, q, out)?;
    after_quote(text, q, flow, w, used)
}

// From its opening quote; the span takes in the blanks and comment behind it.
pub fn scan_flow_scalar(
    text: &[u8],
    start: Mark,
    flow: bool,
    single: bool,
    indent: u32,
    used: u32,
    out: &mut [u8],
) -> Result<Lexeme, Refusal>
    requires { Indicated text.now start used × (indent < 2 ^ 21) }
    ensures { Lexes text.now out.old out.new used result (scan_flow_scalar flow single indent (view text.now (first_at start))) }
{
    let q = Quote {
        single,
        indent,
        start,
    };
    clear_refused(read_scalar(text, q, flow, used, out), out)
}
