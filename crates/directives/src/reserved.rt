// Any other directive.
ghost use Rattle.std.specs.Prelude.{false, Ok, ◌≡◌, ◌+◌, ◌<◌, ◌^◌, drop, length};
ghost use Rattle.std.proofs.lemmas.List.Edits.{sets};
ghost use Rattle.yaml_text.specs.Refusal.{got};
ghost use Rattle.yaml_text.specs.Utf8.{chars};
ghost use Rattle.yaml_lexeme.specs.Directive.{parameters, reserved_directive};
ghost use Rattle.chars.specs.View.{Stands, view};
ghost use Rattle.reading.specs.Answers.{Reads};
ghost use Rattle.runs.specs.Run.{Writes};
ghost use Rattle.directives.specs.Name.{NameAt, name_in, spaced};

use chars::class::NonSpace;
use chars::mark::Place;
use gaps::skip_blanks;
use reading::{Lexeme, Written, texts_at};
use rooms::{copy, put};
use runs::run_of;
use yaml_lexeme::Kind;
use yaml_text::Mark;

// A space before every word but the first, which goes to n; where the word goes.
fn put_space(out: &mut [u8], n: usize, k: usize) -> usize
    requires { k < 2 ^ 62 }
    ensures { (out.new ≡ sets out.old k (spaced n k)) × (result ≡ k + length (spaced n k)) }
{
    if n < k {
        put(out, k, b' ');
        return k + 1;
    }
    k
}

// The parameters, joined by one space, written from n on.
// By hand: a place goes on by what stands there, with its mark, and no index is counted.
fn read_parameters(text: &[u8], from: Place, n: usize, out: &mut [u8]) -> Written
    requires { Stands text.now from × (n < 2 ^ 32) }
    ensures { Writes text.now out.old out.new from n (Ok result) (got (parameters false false from.mark (chars (drop from.at text.now)))) }
{
    let mut place = skip_blanks(text, from);
    let mut count = n;
    loop {
        let e = run_of::<NonSpace>(text, place);
        let word = &text[place.at..e.at];
        if word.is_empty() {
            return Written { count, place };
        }
        count = put_space(out, n, count);
        copy(out, count, word);
        count += word.len();
        place = skip_blanks(text, e);
    }
}

// Whose name ends at p.
pub fn reserved_directive(text: &[u8], start: Mark, p: Place, used: u32, out: &mut [u8]) -> Lexeme
    requires { NameAt text.now start used p }
    ensures { Reads text.now out.old out.new used (Ok result) (got (reserved_directive start (name_in text.now start).text (view text.now p))) }
{
    copy(out, 0, &text[1..p.at]);
    let n = p.at - 1;
    let r = read_parameters(text, p, n, out);
    let (name, parameters) = texts_at(used, n, r.count - n);
    Lexeme::new(
        Kind::ReservedDirective { name, parameters },
        start,
        r.place.mark,
        r.place,
    )
}
