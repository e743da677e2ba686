// Which lexeme stands here.
ghost use Rattle.std.specs.Prelude.{◌≡◌, ◌+◌, ◌^◌, ◌<◌, ltb, drop};
ghost use Rattle.yaml_text.specs.Char.{':'};
ghost use Rattle.yaml_text.specs.Class.{peek};
ghost use Rattle.yaml_text.specs.Utf8.{chars};
ghost use Rattle.yaml_scan.specs.Choice.{choice, indicator};
ghost use Rattle.yaml_scan.specs.Value.{takes_colon};
ghost use Rattle.chars.specs.View.{Stands};
ghost use Rattle.choices.specs.Choice.{AsDefined, CharHere, ahead, colon_before, dash_or_question};

use chars::class::{is_blank_or_breakz, is_flow};
use chars::code::{
    AMPERSAND, ASTERISK, AT_SIGN, BACKTICK, BAR, BYTE_ORDER_MARK, CLOSE_BRACE, CLOSE_BRACKET,
    COLON, COMMA, DASH, DOUBLE_QUOTE, EXCLAMATION, GREATER, OPEN_BRACE, OPEN_BRACKET, PERCENT,
    QUESTION, SINGLE_QUOTE,
};
use chars::mark::is_marker;
use chars::pick::pick;
use states::State;
use utf8::look;
use yaml_scan::Choice;

// Whether K5 takes the ':' here.
fn takes_colon(text: &[u8], s: State) -> bool
    requires { CharHere text.now s ':' }
    ensures { AsDefined text.now s (λ t. takes_colon t) result }
{
    let n = look(text, s.place.at + 1);
    is_blank_or_breakz(n)
        | (0 < s.flow_level)
            & (is_flow(n) | (s.adjacent_value_allowed_at == s.place.mark.index + 1))
}

// '-' and '?': before blank, break or end they are indicators; in flow, before a flow indicator, they start no token.
#[tactic(auto, unfolding(crate::specs::Choice::dash_or_question))]
fn dash_or_question(text: &[u8], flow: bool, at: usize, found: Choice) -> Choice
    requires { at < 2 ^ 63 }
    ensures { result ≡ dash_or_question flow found (peek (chars (drop (at + 1) text.now)) 0) }
{
    let n = look(text, at + 1);
    if is_blank_or_breakz(n) {
        return found;
    }
    pick(flow & is_flow(n), Choice::Stray, Choice::AtPlain)
}

// The token whose first character is c, in the definition's groups: brackets and ',', dashes, those with text, those that begin none.
#[tactic(auto, unfolding(yaml_scan::specs::Choice::indicator, yaml_text::specs::Class::among))]
fn indicator(text: &[u8], s: State, c: u32) -> Choice
    requires { CharHere text.now s c }
    ensures { result ≡ indicator (ltb 0 s.flow_level) (colon_before s (peek (ahead text.now s) 1)) c (peek (ahead text.now s) 1) }
{
    let flow = 0 < s.flow_level;
    match c {
        OPEN_BRACKET => Choice::Opens { sequence: true },
        OPEN_BRACE => Choice::Opens { sequence: false },
        CLOSE_BRACKET => Choice::Closes { sequence: true },
        CLOSE_BRACE => Choice::Closes { sequence: false },
        COMMA => pick(flow, Choice::AtComma, Choice::Stray),
        DASH => dash_or_question(text, flow, s.place.at, Choice::AtDash),
        QUESTION => dash_or_question(text, flow, s.place.at, Choice::AtQuestion),
        COLON => pick(takes_colon(text, s), Choice::AtColon, Choice::AtPlain),
        ASTERISK => Choice::AtAnchor { alias: true },
        AMPERSAND => Choice::AtAnchor { alias: false },
        EXCLAMATION => Choice::AtTag,
        BAR => pick(flow, Choice::Stray, Choice::AtBlock { literal: true }),
        GREATER => pick(flow, Choice::Stray, Choice::AtBlock { literal: false }),
        SINGLE_QUOTE => Choice::AtQuoted { single: true },
        DOUBLE_QUOTE => Choice::AtQuoted { single: false },
        PERCENT | AT_SIGN | BACKTICK | BYTE_ORDER_MARK => Choice::Stray,
        _ => Choice::AtPlain,
    }
}

// The end; at column 0 document markers; at column 0 and level 0 '%' and BOM; then 42; then the indicator.
pub fn choice(text: &[u8], s: State) -> Choice
    requires { Stands text.now s.place }
    ensures { AsDefined text.now s (λ t. choice t) result }
{
    let at = s.place.at;
    let c = look(text, at);
    if c == 0 {
        return Choice::AtEnd;
    }
    if is_marker(text, s.place) {
        return Choice::AtMarker { starts: c == DASH };
    }
    let outside = (s.place.mark.col == 0) & (s.flow_level == 0);
    if outside & (c == PERCENT) {
        return Choice::AtDirective;
    }
    if outside & (c == BYTE_ORDER_MARK) {
        return Choice::AtByteOrderMark;
    }
    if s.place.mark.col + 1 < s.indents.indent {
        return Choice::BelowIndent;
    }
    indicator(text, s, c)
}
