// The header of a block scalar: its chomping and indentation indicator (YAML 1.2.2, 8.1.1).
ghost use Rattle.std.specs.Prelude.{true, ◌≡◌};
ghost use Rattle.yaml_text.specs.Class.{is_digit};
ghost use Rattle.yaml_lexeme.specs.Block.{chomping_of, is_chomp};
ghost use Rattle.chars.specs.View.{Stands};
ghost use Rattle.block_header.specs.Header.{Heads, headed_by};

use chars::class::is_digit;
use chars::mark::Place;
use utf8::byte;
use yaml_lexeme::Chomping;

#[derive(Clone, Copy)]
pub struct Header {
    pub chomping: Chomping,
    // The indentation indicator; 0: none, as `content_column` of the definition takes it.
    pub increment: u32,
    pub place: Place,
}

#[tactic(auto, unfolding(yaml_lexeme::specs::Block::is_chomp))]
fn is_chomp(c: u8) -> bool
    ensures { result ≡ is_chomp c }
{
    (c == b'+') | (c == b'-')
}

#[tactic(auto, unfolding(yaml_lexeme::specs::Block::chomping_of))]
fn chomping_of(c: u8) -> Chomping
    ensures { result ≡ chomping_of c }
{
    match c {
        b'+' => Chomping::Keep,
        b'-' => Chomping::Strip,
        _ => Chomping::Clip,
    }
}

#[tactic(auto, unfolding(crate::specs::Header::headed_by), using(crate::proofs::Headers::digit_least))]
fn by_digit(chomping: Chomping, digit: u8, place: Place) -> Option<Header>
    requires { is_digit digit ≡ true }
    ensures { result ≡ headed_by chomping digit place }
{
    if digit == b'0' {
        return None;
    }
    Some(Header {
        chomping,
        increment: (digit - b'0') as u32,
        place,
    })
}

// Chomping and indentation indicator, each at most once, in either order; none where the second is 0.
pub fn indicators(text: &[u8], p: Place) -> Option<Header>
    requires { Stands text.now p }
    ensures { Heads text.now p result }
{
    let at = p.at;
    let c = byte(text, at);
    let d = byte(text, at + 1);
    if is_chomp(c) {
        let k = chomping_of(c);
        if is_digit(d as u32) {
            return by_digit(k, d, p.skip_n_non_blank(2));
        }
        return Some(Header {
            chomping: k,
            increment: 0,
            place: p.skip_blank(),
        });
    }
    if is_digit(c as u32) {
        let k = chomping_of(d);
        if is_chomp(d) {
            return by_digit(k, c, p.skip_n_non_blank(2));
        }
        return by_digit(k, c, p.skip_blank());
    }
    Some(Header {
        chomping: Chomping::Clip,
        increment: 0,
        place: p,
    })
}
