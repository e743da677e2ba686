// K1: gaps between tokens; and the blanks and comment that are read after a token.
#![tactic(auto)]

ghost use Rattle.std.specs.Prelude.{◌+◌, ◌≤◌, Bool, ◌≡◌, drop, length};
ghost use Rattle.std.specs.List.{prefix_len};
ghost use Rattle.yaml_text.specs.Class.{is_blank};
ghost use Rattle.yaml_text.specs.Pick.{pick};
ghost use Rattle.yaml_text.specs.Utf8.{chars};
ghost use Rattle.yaml_lexeme.specs.declared.Before.TheVariants.{AfterText, Leading};
ghost use Rattle.yaml_lexeme.specs.Gap.{blanks, blanks_and_comment, is_leading, on_blank, skip_gap, to_break};
ghost use Rattle.chars.specs.View.{Moves, Stands, view};
ghost use Rattle.reading.specs.Reading.{ReachesAs};
ghost use Rattle.gaps.specs.Gap.{Open, Other, Skips, gap_from};
ghost use Rattle.gaps.specs.Line.{is_low, line};
ghost use Rattle.gaps.specs.Spaces.{Tries, space_run};
ghost use Rattle.chars.specs.Parts.{Spans};

use chars::block::{ByteClass, Space, past_blocks};
use chars::class::{is_blank, is_break};
use chars::mark::{Place, break_length};
use chars::pick::pick;
use chars::refuse::refuse;
use utf8::{byte, char_at};
use yaml_lexeme::Before;
use yaml_text::{Decoded, Mark, Refusal};

struct Blank;

impl ByteClass for Blank {
    ghost test = { is_blank };

    fn has(b: u8) -> bool {
        is_blank(b as u32)
    }
}

// A character of one byte that is no break.
struct Low;

impl ByteClass for Low {
    ghost test = { is_low };

    #[tactic(auto, unfolding(crate::specs::Line::is_low))]
    fn has(b: u8) -> bool {
        (b < 128) & !is_break(b as u32)
    }
}

// How many bytes of a class a text begins with.
fn leading<C: ByteClass>(text: &[u8]) -> usize
    ensures value { result ≡ prefix_len C.test text.now }
    ensures within { result ≤ length text.now }
{
    text.iter().take_while(|b| C::has(**b)).count()
}

// Past the blanks here.
pub fn skip_blanks(text: &[u8], start: Place) -> Place
    requires { Stands text.now start }
    ensures { Moves text.now start result (blanks start.mark (chars (drop start.at text.now))) }
{
    start.skip_n_non_blank(leading::<Blank>(&text[start.at..]) as u32)
}

// To the line's end: over the characters of one byte in a row, and over one of several bytes. The bytes passed over are the line's text.
// By hand: a turn takes as many bytes as stand in a row, and a mark goes along.
pub fn run_to_break(text: &[u8], start: Place) -> Place
    requires { Stands text.now start }
    ensures { Spans text.now start result (line start.mark (chars (drop start.at text.now))) }
{
    let mut p = start;
    loop {
        let q = p.skip_n_non_blank(leading::<Low>(&text[p.at..]) as u32);
        let d = char_at(text, q.at);
        let Decoded::Char { code, len } = d else {
            return q;
        };
        if is_break(code) {
            return q;
        }
        p = q.skip_non_blank(len);
    }
}

// To the line's end.
#[tactic(auto, using(chars::specs::Places::moves_as, crate::specs::Line::line_place))]
fn to_break(text: &[u8], start: Place) -> Place
    requires { Stands text.now start }
    ensures { Moves text.now start result (to_break start.mark (chars (drop start.at text.now))) }
{
    run_to_break(text, start)
}

// The blanks and comment read after a directive, a block header, a quoted scalar, a bracket, ',' and `...`.
pub fn blanks_and_comment(text: &[u8], start: Place) -> Result<Place, Refusal>
    requires { Stands text.now start }
    ensures { ReachesAs text.now start result (blanks_and_comment (view text.now start)) }
{
    let from = start.at;
    let blank = is_blank(byte(text, from) as u32);
    let p = skip_blanks(text, start);
    let at = p.at;
    if byte(text, at) != b'#' {
        return Ok(p);
    }
    if blank {
        return Ok(to_break(text, p));
    }
    refuse(44, p.mark)
}

// A gap's end: where it ends, whether a simple key is allowed there, whether only blanks stand before it on its line.
#[derive(Clone, Copy)]
pub struct Gap {
    pub place: Place,
    pub simple_key_allowed: bool,
    pub leading_whitespace: bool,
}

// What stands before the character behind the blank c.
#[tactic(auto, unfolding(yaml_lexeme::specs::Gap::on_blank))]
fn on_blank(flow: bool, m: Mark, c: u8, b: Before) -> Before
    ensures { result ≡ on_blank flow m c b }
{
    match b {
        Before::Leading => pick(!flow & (c == b'\t'), Before::Tabbed(m), b),
        Before::AfterText => Before::Spaced,
        _ => b,
    }
}

// Whether only blanks stand between the line's start and here.
#[tactic(auto, unfolding(yaml_lexeme::specs::Gap::is_leading))]
fn is_leading(b: Before) -> bool
    ensures { result ≡ is_leading b }
{
    matches!(b, Before::Leading | Before::Tabbed(_))
}

// The gap ends here. 45: a token stands here, with a tab among the line's leading blanks.
fn gap_end(text: &[u8], p: Place, allowed: bool, b: Before) -> Result<Gap, Refusal>
    requires { Stands text.now p × Other (chars (drop p.at text.now)) × Open b }
    ensures { (flow : Bool) → Skips text.now p result (gap_from flow allowed b (view text.now p)) }
{
    if let Before::Tabbed(tab) = b {
        if let Decoded::Char { code: _, len: _ } = char_at(text, p.at) {
            return refuse(45, tab);
        }
    }
    Ok(Gap {
        place: p,
        simple_key_allowed: allowed,
        leading_whitespace: is_leading(b),
    })
}

// Over spaces that stand in blocks, where the place is one that a block is tried at.
fn past_some_spaces(text: &[u8], at: usize) -> usize
    requires { at ≤ length text.now }
    ensures { Tries text.now at result }
{
    if at % 16 != 0 {
        return at;
    }
    past_blocks::<Space>(text, at)
}

// Where the spaces end that begin at a place. A turn passes one byte or a row of blocks, so no iterator takes its steps.
#[tactic(auto, using(crate::specs::Spaces::spaces_over, crate::specs::Spaces::spaces_past))]
fn past_spaces(text: &[u8], start: usize) -> usize
    requires { start ≤ length text.now }
    ensures { result ≡ start + space_run (drop start text.now) }
{
    let mut at = start;
    while at < text.len() && text[at] == b' ' {
        at = past_some_spaces(text, at + 1);
    }
    at
}

// The gap that begins here.
// By hand: a place goes on by what stands there, with its mark, and no index is counted.
pub fn skip_gap(
    text: &[u8],
    start: Place,
    flow: bool,
    allowed: bool,
    leads: bool,
) -> Result<Gap, Refusal>
    requires { Stands text.now start }
    ensures { Skips text.now start result (skip_gap flow allowed (pick leads Leading AfterText) start.mark (chars (drop start.at text.now))) }
{
    let mut p = start;
    let mut b = pick(leads, Before::Leading, Before::AfterText);
    let mut ok = allowed;
    loop {
        let at = p.at;
        let c = byte(text, at);
        if is_blank(c as u32) {
            let m = p.mark;
            b = on_blank(flow, m, c, b);
            // The spaces behind it, which change nothing more, at once.
            p = p.skip_n_non_blank((past_spaces(text, at + 1) - at) as u32);
            continue;
        }
        if is_break(c as u32) {
            b = Before::Leading;
            p = p.skip_linebreak(break_length(text, at));
            ok = ok | !flow;
            continue;
        }
        if c != b'#' {
            return gap_end(text, p, ok, b);
        }
        if let Before::AfterText = b {
            return refuse(44, p.mark);
        }
        // Behind a comment, as behind a blank: a break or the end.
        b = Before::Spaced;
        p = to_break(text, p);
    }
}
