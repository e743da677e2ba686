// Where the content of a block scalar begins, by its column (8.1.1.1, and K7).
ghost use Rattle.std.specs.Prelude.{◌<◌, ◌^◌, ◌≤◌, ◌≡◌, drop};
ghost use Rattle.yaml_text.specs.Utf8.{chars};
ghost use Rattle.yaml_lexeme.specs.Block.{content_column, largest, margin};
ghost use Rattle.chars.specs.View.{Stands, view};
ghost use Rattle.block_header.specs.Margin.{Margins};

use chars::class::is_break;
use chars::mark::{Place, break_length};
use utf8::byte;

// The largest column reached by leading spaces up to the first line with other text.
// By hand: a place goes on by what stands there, with its mark, and no index is counted.
fn largest_column(text: &[u8], from: Place) -> u32
    requires { Stands text.now from }
    ensures { result ≡ largest 0 from.mark (chars (drop from.at text.now)) }
{
    let mut p = from;
    let mut most: u32 = 0;
    loop {
        let at = p.at;
        let c = byte(text, at);
        if c == b' ' {
            p = p.skip_blank();
            continue;
        }
        most = most.max(p.mark.col);
        if is_break(c as u32) {
            p = p.skip_linebreak(break_length(text, at));
            continue;
        }
        return most;
    }
}

// The content's column. parent: the block's own indent + 1.
#[tactic(auto, using(crate::proofs::Margins::column_none, crate::proofs::Margins::column_top, crate::proofs::Margins::column_some))]
pub fn content_column(text: &[u8], parent: u32, increment: u32, p: Place) -> u32
    requires { Stands text.now p × (parent < 2 ^ 21) × (increment ≤ 9) }
    ensures { result ≡ content_column parent increment (view text.now p) }
{
    if increment == 0 {
        return largest_column(text, p).max(parent);
    }
    // An indent of -1: the indicator does not add to it.
    if parent == 0 {
        return increment;
    }
    parent - 1 + increment
}

#[derive(Clone, Copy)]
pub struct Margin {
    // How many lines ended.
    pub breaks: u32,
    pub place: Place,
}

// Over empty lines, and spaces up to the column.
// By hand: a place goes on by what stands there, with its mark, and no index is counted.
pub fn skip_margin(text: &[u8], from: Place, column: u32) -> Margin
    requires { Stands text.now from }
    ensures { Margins text.now from result (margin column 0 from.mark (chars (drop from.at text.now))) }
{
    let mut p = from;
    let mut n: u32 = 0;
    loop {
        let at = p.at;
        let c = byte(text, at);
        if is_break(c as u32) {
            p = p.skip_linebreak(break_length(text, at));
            n += 1;
            continue;
        }
        if (c == b' ') & (p.mark.col < column) {
            p = p.skip_blank();
            continue;
        }
        return Margin {
            breaks: n,
            place: p,
        };
    }
}
