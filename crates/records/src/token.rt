// The words of a token's record.
ghost use Rattle.std.specs.Prelude.{◌≡◌};
ghost use Rattle.yaml_lexeme.specs.Record.{number_of, record_of, values_of};
ghost use Rattle.records.specs.Kinds.{five};

use crate::RECORD_WORDS;
use yaml_lexeme::{Kind, Token};

// Word 1: the number of a kind. No conversion: it leaves out what the kind holds.
#[tactic(auto, unfolding(yaml_lexeme::specs::Record::number_of))]
pub fn kind_number(k: Kind) -> u32
    ensures { result ≡ number_of k }
{
    match k {
        Kind::StreamStart => 1,
        Kind::StreamEnd => 2,
        Kind::VersionDirective { .. } => 3,
        Kind::TagDirective { .. } => 4,
        Kind::DocumentStart => 5,
        Kind::DocumentEnd => 6,
        Kind::ByteOrderMark => 7,
        Kind::BlockSequenceStart => 8,
        Kind::BlockMappingStart => 9,
        Kind::BlockEnd => 10,
        Kind::FlowSequenceStart => 11,
        Kind::FlowSequenceEnd => 12,
        Kind::FlowMappingStart => 13,
        Kind::FlowMappingEnd => 14,
        Kind::BlockEntry => 15,
        Kind::FlowEntry => 16,
        Kind::Key => 17,
        Kind::Value => 18,
        Kind::Alias(_) => 19,
        Kind::Anchor(_) => 20,
        Kind::Tag { .. } => 21,
        Kind::Scalar { .. } => 22,
        Kind::ReservedDirective { .. } => 23,
    }
}

// Words 8 to 12.
#[tactic(auto, unfolding(yaml_lexeme::specs::Record::values_of, yaml_lexeme::specs::Record::style_number))]
fn values_of(k: Kind) -> [u32; 5]
    ensures { result ≡ five (values_of k) }
{
    match k {
        Kind::VersionDirective { major, minor } => [major, minor, 0, 0, 0],
        Kind::TagDirective { handle, prefix } => [handle.at, handle.len, prefix.at, prefix.len, 0],
        Kind::Alias(a) => [a.at, a.len, 0, 0, 0],
        Kind::Anchor(a) => [a.at, a.len, 0, 0, 0],
        Kind::Tag { handle, suffix } => [handle.at, handle.len, suffix.at, suffix.len, 0],
        Kind::Scalar { style, text } => [text.at, text.len, 0, 0, style as u32],
        Kind::ReservedDirective { name, parameters } => [
            name.at,
            name.len,
            parameters.at,
            parameters.len,
            0,
        ],
        _ => [0, 0, 0, 0, 0],
    }
}

// All words. No `From`, since the type of tokens stands in the definition's crate, which has no code.
#[tactic(auto, unfolding(yaml_lexeme::specs::Record::record_of))]
pub fn record_of(t: Token) -> [u32; RECORD_WORDS]
    ensures { result ≡ record_of t }
{
    let [a, b, c, d, e] = values_of(t.kind);
    [
        kind_number(t.kind),
        t.start.index,
        t.start.line,
        t.start.col,
        t.end.index,
        t.end.line,
        t.end.col,
        a,
        b,
        c,
        d,
        e,
    ]
}
