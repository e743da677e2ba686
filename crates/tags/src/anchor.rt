// Anchors and aliases.
ghost use Rattle.yaml_lexeme.specs.Anchor.{scan_anchor};
ghost use Rattle.chars.specs.View.{view};
ghost use Rattle.reading.specs.Reading.{Indicated, Lexes, first_at};

use chars::class::AnchorChar;
use chars::mark::Place;
use chars::pick::pick;
use chars::refuse::refuse;
use reading::{Lexeme, clear, text_at};
use rooms::copy;
use runs::run_of;
use yaml_lexeme::Kind;
use yaml_text::{Mark, Refusal};

// From its indicator. 27: no name.
pub fn scan_anchor(
    text: &[u8],
    start: Mark,
    alias: bool,
    used: u32,
    out: &mut [u8],
) -> Result<Lexeme, Refusal>
    requires { Indicated text.now start used }
    ensures { Lexes text.now out.old out.new used result (scan_anchor alias (view text.now (first_at start))) }
{
    let first = Place::first_at(start);
    let e = run_of::<AnchorChar>(text, first.skip_blank());
    let to = e.at;
    if to == 1 {
        clear(out);
        return refuse(27, start);
    }
    copy(out, 0, &text[1..to]);
    let name = text_at(used, to - 1);
    let kind = pick(alias, Kind::Alias(name), Kind::Anchor(name));
    Ok(Lexeme::new(kind, start, e.mark, e))
}
