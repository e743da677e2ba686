// The tests of char_traits. 0 stands for the end of the text. `|` and `&` take no branch: a loop that stops at a class gets one bit test.
#![tactic(auto, unfolding(yaml_text::specs::Class::among, yaml_text::specs::Class::is_alpha, yaml_text::specs::Class::is_anchor, yaml_text::specs::Class::is_blank, yaml_text::specs::Class::is_blank_or_breakz, yaml_text::specs::Class::is_bom, yaml_text::specs::Class::is_break, yaml_text::specs::Class::is_breakz, yaml_text::specs::Class::is_digit, yaml_text::specs::Class::is_flow, yaml_text::specs::Class::is_hex, yaml_text::specs::Class::is_non_space, yaml_text::specs::Class::is_tag, yaml_text::specs::Class::is_z))]

ghost use Rattle.std.specs.Prelude.{true, ◌≡◌, ℕ, Bool};
ghost use Rattle.yaml_text.specs.Class.{as_hex, is_alpha, is_anchor, is_blank, is_blank_or_breakz, is_bom, is_break, is_breakz, is_digit, is_flow, is_hex, is_non_space, is_tag, is_uri, is_z};

use crate::code::{
    BYTE_ORDER_MARK, CARRIAGE_RETURN, CLOSE_BRACE, CLOSE_BRACKET, COMMA, DASH, EQUALS, EXCLAMATION,
    HASH, LINE_FEED, LOWER_A, LOWER_F, LOWER_Z, NINE, OPEN_BRACE, OPEN_BRACKET, QUESTION,
    SEMICOLON, SPACE, TAB, TILDE, UNDERSCORE, UPPER_A, UPPER_F, UPPER_Z, ZERO,
};

// What a hexadecimal digit from 'A' or from 'a' on is above its value.
const UPPER_LESS_10: u32 = b'A' as u32 - 10;

const LOWER_LESS_10: u32 = b'a' as u32 - 10;

fn is_z(c: u32) -> bool
    ensures { result ≡ is_z c }
{
    c == 0
}

pub fn is_break(c: u32) -> bool
    ensures { result ≡ is_break c }
{
    (c == LINE_FEED) | (c == CARRIAGE_RETURN)
}

pub fn is_breakz(c: u32) -> bool
    ensures { result ≡ is_breakz c }
{
    is_break(c) | is_z(c)
}

pub fn is_blank(c: u32) -> bool
    ensures { result ≡ is_blank c }
{
    (c == SPACE) | (c == TAB)
}

pub fn is_blank_or_breakz(c: u32) -> bool
    ensures { result ≡ is_blank_or_breakz c }
{
    is_blank(c) | is_breakz(c)
}

pub fn is_digit(c: u32) -> bool
    ensures { result ≡ is_digit c }
{
    (ZERO <= c) & (c <= NINE)
}

// Letters, digits, _ and -.
pub fn is_alpha(c: u32) -> bool
    ensures { result ≡ is_alpha c }
{
    is_digit(c)
        | (UPPER_A <= c) & (c <= UPPER_Z)
        | (LOWER_A <= c) & (c <= LOWER_Z)
        | ((c == UNDERSCORE) | (c == DASH))
}

pub fn is_hex(c: u32) -> bool
    ensures { result ≡ is_hex c }
{
    is_digit(c) | (UPPER_A <= c) & (c <= UPPER_F) | (LOWER_A <= c) & (c <= LOWER_F)
}

// The value of a hexadecimal digit.
#[tactic(auto, using(crate::proofs::Laws::hex_least, crate::proofs::Laws::hex_small), unfolding(yaml_text::specs::Class::as_hex, yaml_text::specs::Class::is_digit))]
pub fn as_hex(c: u32) -> u32
    requires { is_hex c ≡ true }
    ensures { result ≡ as_hex c }
{
    if c <= NINE {
        return c - ZERO;
    }
    if c <= UPPER_F {
        return c - UPPER_LESS_10;
    }
    c - LOWER_LESS_10
}

// , [ ] { }
pub fn is_flow(c: u32) -> bool
    ensures { result ≡ is_flow c }
{
    (c == COMMA)
        | (c == OPEN_BRACKET)
        | (c == CLOSE_BRACKET)
        | (c == OPEN_BRACE)
        | (c == CLOSE_BRACE)
}

pub fn is_bom(c: u32) -> bool
    ensures { result ≡ is_bom c }
{
    c == BYTE_ORDER_MARK
}

// Neither blank, break, end nor byte order mark.
pub fn is_yaml_non_space(c: u32) -> bool
    ensures { result ≡ is_non_space c }
{
    !is_blank_or_breakz(c) & !is_bom(c)
}

pub fn is_anchor_char(c: u32) -> bool
    ensures { result ≡ is_anchor c }
{
    is_yaml_non_space(c) & !is_flow(c)
}

// Letters, digits and - # ; / ? : @ & = + $ , _ . ! ~ * ' ( ) [ ] %, by ranges.
#[tactic(auto, using(crate::proofs::Laws::uri_same), unfolding(crate::proofs::Laws::uri_ranges))]
pub fn is_uri_char(c: u32) -> bool
    ensures { result ≡ is_uri c }
{
    (c == EXCLAMATION)
        | (HASH <= c) & (c <= SEMICOLON)
        | (c == EQUALS)
        | (QUESTION <= c) & (c <= OPEN_BRACKET)
        | (c == CLOSE_BRACKET)
        | (c == UNDERSCORE)
        | (LOWER_A <= c) & (c <= LOWER_Z)
        | (c == TILDE)
}

pub fn is_tag_char(c: u32) -> bool
    ensures { result ≡ is_tag c }
{
    is_uri_char(c) & !is_flow(c) & (c != EXCLAMATION)
}

// A class of characters, for a reader that takes a run of them.
pub trait Class {
    ghost test: { ℕ → Bool };

    fn has(c: u32) -> bool
        ensures { result ≡ test c };
}

pub struct Alpha;

impl Class for Alpha {
    ghost test = { is_alpha };

    fn has(c: u32) -> bool {
        is_alpha(c)
    }
}

pub struct AnchorChar;

impl Class for AnchorChar {
    ghost test = { is_anchor };

    fn has(c: u32) -> bool {
        is_anchor_char(c)
    }
}

pub struct NonSpace;

impl Class for NonSpace {
    ghost test = { is_non_space };

    fn has(c: u32) -> bool {
        is_yaml_non_space(c)
    }
}

pub struct UriChar;

impl Class for UriChar {
    ghost test = { is_uri };

    fn has(c: u32) -> bool {
        is_uri_char(c)
    }
}

pub struct TagChar;

impl Class for TagChar {
    ghost test = { is_tag };

    fn has(c: u32) -> bool {
        is_tag_char(c)
    }
}
