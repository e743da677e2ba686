// K7: block scalars (29 to 32).
#![tactic(auto)]

ghost use Rattle.std.specs.Prelude.{◌+◌, ◌<◌, ◌^◌, ◌≤◌, ◌≡◌, replicate};
ghost use Rattle.yaml_text.specs.Char.{line_feed};
ghost use Rattle.yaml_text.specs.Pick.{pick};
ghost use Rattle.yaml_text.specs.Refusal.{got};
ghost use Rattle.yaml_lexeme.specs.declared.Style.TheVariants.{Folded, Literal};
ghost use Rattle.yaml_lexeme.specs.Block as definition;
ghost use Rattle.chars.specs.View.{view};
ghost use Rattle.reading.specs.Answers.{Reads};
ghost use Rattle.reading.specs.Reading.{Indicated, Lexes, first_at};
ghost use Rattle.block_content.specs.Content.{Settles, first_of, layout_of};
ghost use Rattle.block_scalars.specs.Scan.{Empties, HeaderRead, after_header, content_lexeme, header_end, header_of, margin_of, scalar_token, under_header};

use block_content::{Layout, chomped, ends_at, opens_content, read_content};
use block_header::header::{Header, indicators};
use block_header::margin::{Margin, content_column, skip_margin};
use chars::class::is_breakz;
use chars::mark::{Place, skip_break};
use chars::pick::pick;
use chars::refuse::refuse;
use gaps::blanks_and_comment;
use reading::{Lexeme, clear_refused, put_breaks, text_at};
use utf8::{byte, look};
use yaml_lexeme::{Chomping, Kind, Style};
use yaml_text::{Mark, Refusal};

// What a block scalar is read with. parent: the block's own indent + 1; used: how many bytes of text stand before its own.
#[derive(Clone, Copy)]
pub struct Block {
    pub start: Mark,
    pub literal: bool,
    pub parent: u32,
    pub used: u32,
}

// A scalar of n bytes that ends at p.
fn scalar(k: Block, n: usize, start: Mark, p: Place) -> Lexeme
    ensures { result ≡ scalar_token k n start p }
{
    let style = pick(k.literal, Style::Literal, Style::Folded);
    let text = text_at(k.used, n);
    Lexeme::new(Kind::Scalar { style, text }, start, p.mark, p)
}

// The content, chomped.
fn content_scalar(text: &[u8], k: Block, b: Layout, g: Margin, out: &mut [u8]) -> Lexeme
    requires { Settles text.now b (first_of g) }
    ensures { Reads text.now out.old out.new k.used (Ok result) (got (content_lexeme text.now k b g)) }
{
    let c = read_content(text, b, g, out);
    let p = c.place;
    let last = ends_at(text, p.at) & (b.column.max(1) <= p.mark.col);
    let n = put_breaks(out, c.count, chomped(b.chomping, last, c.line));
    scalar(k, n, g.place.mark, p)
}

// How many line feeds the text is where the whole text ends before any content, n lines after the header's. part: in a line that is not empty.
fn no_content(chomping: Chomping, n: u32, part: bool) -> u32
    ensures { (definition.no_content chomping n part ≡ replicate result line_feed) × (result ≤ n + 1) }
{
    match chomping {
        Chomping::Strip => 0,
        Chomping::Clip => 0,
        Chomping::Keep => {
            if n == 0 {
                return u32::from(part);
            }
            n
        }
    }
}

// The scalar of a text that ends before any content.
fn empty_scalar(k: Block, b: Layout, g: Margin, out: &mut [u8]) -> Lexeme
    ensures { Empties k b g out.old out.new result }
{
    let m = g.place.mark;
    let part = (k.start.line < m.line) & (0 < m.col);
    let n = put_breaks(out, 0, no_content(b.chomping, g.breaks, part));
    scalar(k, n, k.start, g.place)
}

// 32: the first content column is above the parent's but below its own indent.
fn content_under(
    text: &[u8],
    k: Block,
    b: Layout,
    g: Margin,
    out: &mut [u8],
) -> Result<Lexeme, Refusal>
    requires { Settles text.now b (first_of g) }
    ensures { Reads text.now out.old out.new k.used result (definition.block_content (layout_of b) (pick k.literal Literal Folded) k.parent k.start (margin_of text.now g)) }
{
    let p = g.place;
    let m = p.mark;
    if ends_at(text, p.at) {
        return Ok(empty_scalar(k, b, g, out));
    }
    if opens_content(text, p) & (m.col < b.column) & (k.parent <= m.col) {
        return refuse(32, m);
    }
    Ok(content_scalar(text, k, b, g, out))
}

// Behind the header's break. 31: a tab right there. That the header was read (`HeaderRead`) is so in one text: no invariant of `Header` could say it.
fn under_header(
    text: &[u8],
    k: Block,
    h: Header,
    q: Place,
    out: &mut [u8],
) -> Result<Lexeme, Refusal>
    requires { HeaderRead text.now k h q }
    ensures { Reads text.now out.old out.new k.used result (under_header k (header_of text.now h) (view text.now q)) }
{
    if byte(text, q.at) == b'\t' {
        return refuse(31, k.start);
    }
    let column = content_column(text, k.parent, h.increment, q);
    let b = Layout {
        literal: k.literal,
        chomping: h.chomping,
        column,
    };
    content_under(text, k, b, skip_margin(text, q, column), out)
}

// Behind the header's blanks and comment. 30: anything but its break.
fn header_end(text: &[u8], k: Block, h: Header, e: Place, out: &mut [u8]) -> Result<Lexeme, Refusal>
    requires { HeaderRead text.now k h e }
    ensures { Reads text.now out.old out.new k.used result (header_end k (header_of text.now h) (view text.now e)) }
{
    if is_breakz(look(text, e.at)) {
        return under_header(text, k, h, skip_break(text, e), out);
    }
    refuse(30, k.start)
}

// Behind the header's indicators.
fn after_header(text: &[u8], k: Block, h: Header, out: &mut [u8]) -> Result<Lexeme, Refusal>
    requires { HeaderRead text.now k h h.place }
    ensures { Reads text.now out.old out.new k.used result (after_header k (header_of text.now h)) }
{
    let e = blanks_and_comment(text, h.place)?;
    header_end(text, k, h, e, out)
}

// From its indicator. 29: the indicator 0.
fn read_scalar(text: &[u8], k: Block, out: &mut [u8]) -> Result<Lexeme, Refusal>
    requires { Indicated text.now k.start k.used × (k.parent < 2 ^ 21) }
    ensures { Reads text.now out.old out.new k.used result (definition.scan_block_scalar k.literal k.parent (view text.now (first_at k.start))) }
{
    let first = Place {
        at: 0,
        mark: k.start,
    };
    let Some(h) = indicators(text, first.skip_blank()) else {
        return refuse(29, k.start);
    };
    after_header(text, k, h, out)
}

// parent: the block's own indent + 1.
pub fn scan_block_scalar(
    text: &[u8],
    start: Mark,
    literal: bool,
    parent: u32,
    used: u32,
    out: &mut [u8],
) -> Result<Lexeme, Refusal>
    requires { Indicated text.now start used × (parent < 2 ^ 21) }
    ensures { Lexes text.now out.old out.new used result (definition.scan_block_scalar literal parent (view text.now (first_at start))) }
{
    let k = Block {
        start,
        literal,
        parent,
        used,
    };
    let r = read_scalar(text, k, out);
    clear_refused(r, out)
}
