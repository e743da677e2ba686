// The content of a block scalar, line by line (8.1.2, 8.1.3).
#![tactic(auto)]

ghost use Rattle.std.specs.Prelude.{◌+◌, ◌<◌, ◌^◌, ◌≤◌, ◌≡◌, drop, replicate};
ghost use Rattle.yaml_text.specs.Char.{line_feed};
ghost use Rattle.yaml_text.specs.Class.{none_left};
ghost use Rattle.yaml_text.specs.Utf8.{chars};
ghost use Rattle.yaml_lexeme.specs.Block.{opens_content, separator};
ghost use Rattle.yaml_lexeme.specs.Block as definition;
ghost use Rattle.reading.specs.Puts.{Puts};
ghost use Rattle.block_content.specs.Content.{LineEnd, OpensContent, Reads, Rests, Settles, behind_breaks, first_of, line_at, line_of, lines_of, more_of, own_of, pending};

use block_header::margin::{Margin, skip_margin};
use chars::class::{is_blank, is_bom, is_breakz};
use chars::mark::{Place, is_marker, skip_break};
use gaps::run_to_break;
use reading::{put_breaks, put_fold};
use rooms::copy;
use utf8::{char_at, look};
use yaml_lexeme::Chomping;
use yaml_text::Decoded;

// A line that opens with a BOM (K1), or at column 0 with a document marker, is no content line.
#[tactic(auto, unfolding(yaml_lexeme::specs::Block::opens_content))]
pub fn opens_content(text: &[u8], p: Place) -> bool
    ensures { result ≡ opens_content p.mark (chars (drop p.at text.now)) }
{
    let c = look(text, p.at);
    !is_breakz(c) & !is_bom(c) & !is_marker(text, p)
}

pub fn ends_at(text: &[u8], at: usize) -> bool
    ensures { result ≡ none_left (chars (drop at text.now)) }
{
    let d = char_at(text, at);
    match d {
        Decoded::Char { .. } => false,
        Decoded::Ill => true,
        Decoded::End => true,
    }
}

// What holds for the whole scalar.
#[derive(Clone, Copy)]
pub struct Layout {
    pub literal: bool,
    pub chomping: Chomping,
    pub column: u32,
}

// Between content lines: before the first, so many lines after the header's; behind one that opened with a blank or not, and so many more.
#[derive(Clone, Copy)]
pub enum Between {
    Ahead { lines: u32 },
    Behind { blank: bool, lines: u32 },
}

// The state of the reading: where, what stands before it, how many bytes of text so far. That it `Settles` is no invariant of the struct, since it
// is so in one text, which no copy of the state should carry along.
#[derive(Clone, Copy)]
pub struct Content {
    pub place: Place,
    pub line: Between,
    pub count: usize,
}

// The break behind a content line and n more: kept, or folded.
fn put_behind(out: &mut [u8], at: usize, keeps: bool, n: u32) -> usize
    requires { at + n < 2 ^ 31 }
    ensures { Puts out.old at out.new result (behind_breaks keeps n) }
{
    if keeps {
        return put_breaks(out, at, n + 1);
    }
    put_fold(out, at, n)
}

// What stands before a content line that opens with a blank or not.
fn put_separator(out: &mut [u8], at: usize, literal: bool, blank: bool, line: Between) -> usize
    requires { at + pending line < 2 ^ 31 }
    ensures { Puts out.old at out.new result (separator literal blank (line_of line)) }
{
    match line {
        Between::Ahead { lines } => put_breaks(out, at, lines),
        Between::Behind { blank: w, lines } => put_behind(out, at, literal | w | blank, lines),
    }
}

// Behind a content line: past its break and the margin. At the text's end nothing is pending, as before the first line.
fn after_line(text: &[u8], b: Layout, blank: bool, e: Place, count: usize) -> Content
    requires { LineEnd text.now e count }
    ensures { Rests text.now b blank e count result }
{
    if ends_at(text, e.at) {
        return Content {
            place: e,
            line: Between::Ahead { lines: 0 },
            count,
        };
    }
    let g = skip_margin(text, skip_break(text, e), b.column);
    Content {
        place: g.place,
        line: Between::Behind {
            blank,
            lines: g.breaks,
        },
        count,
    }
}

// A content line, past its break and the margin behind it.
fn content_line(text: &[u8], b: Layout, c: Content, out: &mut [u8]) -> Content
    requires { OpensContent text.now b c }
    ensures { Reads text.now b out.old c out.new result (line_at text.now b c) × (c.place.at < result.place.at) }
{
    let at = c.place.at;
    let blank = is_blank(look(text, at));
    let n = put_separator(out, c.count, b.literal, blank, c.line);
    let e = run_to_break(text, c.place);
    copy(out, n, &text[at..e.at]);
    after_line(text, b, blank, e, n + (e.at - at))
}

// The content from behind the first margin on, without its end.
// By hand: a place goes on by what stands there, with its mark, and no index is counted.
pub fn read_content(text: &[u8], b: Layout, from: Margin, out: &mut [u8]) -> Content
    requires { Settles text.now b (first_of from) }
    ensures { Reads text.now b out.old (first_of from) out.new result (lines_of text.now b (first_of from)) }
{
    let mut c = Content {
        place: from.place,
        line: Between::Ahead { lines: from.breaks },
        count: 0,
    };
    while (c.place.mark.col == b.column) & opens_content(text, c.place) {
        c = content_line(text, b, c, out);
    }
    c
}

// How many line feeds stand behind the content. last: the text ends in a line that has no break.
pub fn chomped(chomping: Chomping, last: bool, line: Between) -> u32
    requires { pending line < 2 ^ 31 }
    ensures { (definition.chomped chomping last (definition.between (line_of line)) ≡ replicate result line_feed) × (result ≤ pending line + 1) }
{
    let extra = u32::from(last);
    match chomping {
        Chomping::Strip => 0,
        Chomping::Clip => own_break(line) + extra,
        Chomping::Keep => own_break(line) + extra + lines_after(line),
    }
}

#[tactic(auto, unfolding(crate::specs::Content::own_of))]
fn own_break(line: Between) -> u32
    ensures { result ≡ own_of line }
{
    match line {
        Between::Ahead { .. } => 0,
        Between::Behind { .. } => 1,
    }
}

#[tactic(auto, unfolding(crate::specs::Content::more_of))]
fn lines_after(line: Between) -> u32
    ensures { result ≡ more_of line }
{
    match line {
        Between::Ahead { lines } | Between::Behind { lines, .. } => lines,
    }
}
