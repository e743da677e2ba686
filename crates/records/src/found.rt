// The token of a record.
ghost use Rattle.std.specs.Prelude.{◌≡◌, drop, get_or, take};
ghost use Rattle.yaml_lexeme.specs.Table.{looked_up};
ghost use Rattle.yaml_lexeme.specs.Record.{record_words, scalar_rows, token_by_number, token_of};
ghost use Rattle.records.specs.Kinds.{marked, silent_rows};

use crate::RECORD_WORDS;
use crate::token::record_of;
use yaml_lexeme::{Kind, Style, Text, Token};
use yaml_text::Mark;

// A scalar, by the number of its style.
#[tactic(auto, unfolding(yaml_lexeme::specs::Table::looked_up, yaml_lexeme::specs::Record::style_number))]
fn scalar(w: [u32; RECORD_WORDS], text: Text) -> Option<Kind>
    ensures { marked w result ≡ looked_up None (get_or w 11 0) (scalar_rows w text) }
{
    match w[11] {
        1 => Some(Kind::Scalar {
            style: Style::Plain,
            text,
        }),
        2 => Some(Kind::Scalar {
            style: Style::SingleQuoted,
            text,
        }),
        3 => Some(Kind::Scalar {
            style: Style::DoubleQuoted,
            text,
        }),
        4 => Some(Kind::Scalar {
            style: Style::Literal,
            text,
        }),
        5 => Some(Kind::Scalar {
            style: Style::Folded,
            text,
        }),
        _ => None,
    }
}

// A kind that holds nothing.
#[tactic(auto, unfolding(yaml_lexeme::specs::Table::looked_up, yaml_lexeme::specs::Record::number_of))]
fn silent_kind(w: [u32; RECORD_WORDS]) -> Option<Kind>
    ensures { marked w result ≡ looked_up None (get_or w 0 0) (silent_rows w) }
{
    match w[0] {
        1 => Some(Kind::StreamStart),
        2 => Some(Kind::StreamEnd),
        5 => Some(Kind::DocumentStart),
        6 => Some(Kind::DocumentEnd),
        7 => Some(Kind::ByteOrderMark),
        8 => Some(Kind::BlockSequenceStart),
        9 => Some(Kind::BlockMappingStart),
        10 => Some(Kind::BlockEnd),
        11 => Some(Kind::FlowSequenceStart),
        12 => Some(Kind::FlowSequenceEnd),
        13 => Some(Kind::FlowMappingStart),
        14 => Some(Kind::FlowMappingEnd),
        15 => Some(Kind::BlockEntry),
        16 => Some(Kind::FlowEntry),
        17 => Some(Kind::Key),
        18 => Some(Kind::Value),
        _ => None,
    }
}

// The kind of the only token whose record w can be.
#[tactic(auto, unfolding(yaml_lexeme::specs::Table::looked_up, yaml_lexeme::specs::Record::number_of))]
fn kind_by_number(w: [u32; RECORD_WORDS]) -> Option<Kind>
    ensures { marked w result ≡ token_by_number w }
{
    let t = Text {
        at: w[7],
        len: w[8],
    };
    let u = Text {
        at: w[9],
        len: w[10],
    };
    match w[0] {
        3 => Some(Kind::VersionDirective {
            major: w[7],
            minor: w[8],
        }),
        4 => Some(Kind::TagDirective {
            handle: t,
            prefix: u,
        }),
        19 => Some(Kind::Alias(t)),
        20 => Some(Kind::Anchor(t)),
        21 => Some(Kind::Tag {
            handle: t,
            suffix: u,
        }),
        22 => scalar(w, t),
        23 => Some(Kind::ReservedDirective {
            name: t,
            parameters: u,
        }),
        _ => silent_kind(w),
    }
}

// That token.
fn token_by_number(w: [u32; RECORD_WORDS]) -> Option<Token>
    ensures { result ≡ token_by_number w }
{
    let kind = kind_by_number(w)?;
    let start = Mark {
        index: w[1],
        line: w[2],
        col: w[3],
    };
    let end = Mark {
        index: w[4],
        line: w[5],
        col: w[6],
    };
    Some(Token { kind, start, end })
}

// The token whose record w is.
fn token_in(w: [u32; RECORD_WORDS]) -> Option<Token>
    ensures { result ≡ token_of w }
{
    token_by_number(w).filter(|t| record_of(*t) == w)
}

// The token of the record that begins at `at`: for whoever reads records back.
#[tactic(auto, using(crate::proofs::Strict::too_short))]
pub fn token_of(words: &[u32], at: usize) -> Option<Token>
    ensures { result ≡ token_of (take record_words (drop at words.now)) }
{
    let record = words.get(at..)?.first_chunk::<RECORD_WORDS>()?;
    token_in(*record)
}
