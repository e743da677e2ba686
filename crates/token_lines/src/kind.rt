// The line of a token.
use crate::Output;
use crate::quoted::put_quoted;
use std::io;
use yaml_lexeme::{Kind, Style, Text, Token};
use yaml_text::Mark;

// `LINE:COLUMN` and a blank, with columns from 1.
fn put_mark(to: &mut Output, m: Mark) -> io::Result<()> {
    to.put_number(m.line as u64)?;
    to.put(b":")?;
    to.put_number(m.col as u64 + 1)?;
    to.put(b" ")
}

fn name_of(k: Kind) -> &'static str {
    match k {
        Kind::StreamStart => "StreamStart",
        Kind::StreamEnd => "StreamEnd",
        Kind::VersionDirective { .. } => "VersionDirective",
        Kind::TagDirective { .. } => "TagDirective",
        Kind::DocumentStart => "DocumentStart",
        Kind::DocumentEnd => "DocumentEnd",
        Kind::ByteOrderMark => "ByteOrderMark",
        Kind::BlockSequenceStart => "BlockSequenceStart",
        Kind::BlockMappingStart => "BlockMappingStart",
        Kind::BlockEnd => "BlockEnd",
        Kind::FlowSequenceStart => "FlowSequenceStart",
        Kind::FlowSequenceEnd => "FlowSequenceEnd",
        Kind::FlowMappingStart => "FlowMappingStart",
        Kind::FlowMappingEnd => "FlowMappingEnd",
        Kind::BlockEntry => "BlockEntry",
        Kind::FlowEntry => "FlowEntry",
        Kind::Key => "Key",
        Kind::Value => "Value",
        Kind::Alias(_) => "Alias",
        Kind::Anchor(_) => "Anchor",
        Kind::Tag { .. } => "Tag",
        Kind::Scalar { .. } => "Scalar",
        Kind::ReservedDirective { .. } => "ReservedDirective",
    }
}

fn style_of(s: Style) -> &'static str {
    match s {
        Style::Plain => " plain",
        Style::SingleQuoted => " single quoted",
        Style::DoubleQuoted => " double quoted",
        Style::Literal => " literal",
        Style::Folded => " folded",
    }
}

// A text among the decoded bytes, as far as it lies in them.
fn put_one(to: &mut Output, bytes: &[u8], t: Text) -> io::Result<()> {
    let from = (t.at as usize).min(bytes.len());
    let behind = &bytes[from..];
    let len = (t.len as usize).min(behind.len());
    to.put(b" ")?;
    put_quoted(to, &behind[..len])
}

fn put_two(to: &mut Output, bytes: &[u8], t: Text, u: Text) -> io::Result<()> {
    put_one(to, bytes, t)?;
    put_one(to, bytes, u)
}

// `1.2`.
fn put_version(to: &mut Output, major: u32, minor: u32) -> io::Result<()> {
    to.put(b" ")?;
    to.put_number(major as u64)?;
    to.put(b".")?;
    to.put_number(minor as u64)
}

// What a token holds.
fn put_held(to: &mut Output, bytes: &[u8], k: Kind) -> io::Result<()> {
    match k {
        Kind::VersionDirective { major, minor } => put_version(to, major, minor),
        Kind::TagDirective { handle, prefix } => put_two(to, bytes, handle, prefix),
        Kind::Alias(t) => put_one(to, bytes, t),
        Kind::Anchor(t) => put_one(to, bytes, t),
        Kind::Tag { handle, suffix } => put_two(to, bytes, handle, suffix),
        Kind::Scalar { style, text } => {
            to.put(style_of(style).as_bytes())?;
            put_one(to, bytes, text)
        }
        Kind::ReservedDirective { name, parameters } => put_two(to, bytes, name, parameters),
        _ => Ok(()),
    }
}

pub fn put_token(to: &mut Output, t: Token, bytes: &[u8]) -> io::Result<()> {
    put_mark(to, t.start)?;
    to.put(name_of(t.kind).as_bytes())?;
    put_held(to, bytes, t.kind)?;
    to.put(b"\n")
}
