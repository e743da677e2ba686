// K3: one token, by which lexeme stands here. Each way is an arm of a match: the choice is the definition's, and a function that
// the choice would hand out in its place could not be handed out.
#![tactic(auto)]

ghost use Rattle.std.specs.Prelude.{◌≡◌, false, length, true};
ghost use Rattle.stacks.specs.Stack.{stack_words};
ghost use Rattle.states.specs.Brief.{brief_fetched};
ghost use Rattle.states.specs.Refused.{has_text};
ghost use Rattle.steps.specs.Step.{Chosen, Steps, is_brief};

use brackets::{fetch_flow_collection_end, fetch_flow_collection_start, fetch_flow_entry};
use chars::refuse::refuse;
use documents::{fetch_byte_order_mark, fetch_document_indicator, fetch_stream_end};
use events::Counts;
use indicators::{fetch_block_entry, fetch_key, fetch_value};
use stacks::STACK_WORDS;
use states::{Brief, Fetched, State};
use text_tokens::{
    fetch_anchor, fetch_block_scalar, fetch_directive, fetch_flow_scalar, fetch_plain_scalar,
    fetch_tag,
};
use yaml_scan::{Choice, Limits};
use yaml_text::Refusal;

// The lexemes that hold text, but plain scalars.
fn fetch_content(
    limits: Limits,
    text: &[u8],
    c: Choice,
    s: State,
    n: Counts,
    stacks: &mut [u32; STACK_WORDS],
    bytes: &mut [u8],
) -> Result<Fetched, Refusal>
    requires { Chosen limits text.now stacks.old n.used s c × (is_brief c ≡ false) × (has_text c ≡ true) }
    ensures { Steps limits text.now stacks.old stacks.new bytes.old bytes.new n s c result }
{
    match c {
        Choice::AtDirective => fetch_directive(limits, text, s, n, stacks, bytes),
        Choice::AtAnchor { alias } => fetch_anchor(limits, text, alias, s, n, stacks, bytes),
        Choice::AtBlock { literal } => fetch_block_scalar(
            limits, text, literal, s, n, stacks, bytes,
        ),
        Choice::AtQuoted { single } => fetch_flow_scalar(limits, text, single, s, n, stacks, bytes),
        _ => fetch_tag(limits, text, s, n, stacks, bytes),
    }
}

// All lexemes that are not brief, and the refusals 42 and 43.
fn match_other(
    limits: Limits,
    text: &[u8],
    c: Choice,
    s: State,
    n: Counts,
    stacks: &mut [u32; STACK_WORDS],
    bytes: &mut [u8],
) -> Result<Fetched, Refusal>
    requires { Chosen limits text.now stacks.old n.used s c × (is_brief c ≡ false) }
    ensures { Steps limits text.now stacks.old stacks.new bytes.old bytes.new n s c result × (length stacks.new ≡ stack_words) }
{
    match c {
        Choice::AtEnd => fetch_stream_end(limits, text, s, n, stacks),
        Choice::AtByteOrderMark => fetch_byte_order_mark(limits, text, s, n, stacks),
        Choice::BelowIndent => refuse(42, s.place.mark),
        Choice::Stray => refuse(43, s.place.mark),
        Choice::AtMarker { starts } => fetch_document_indicator(limits, text, starts, s, n, stacks),
        Choice::AtQuestion => fetch_key(limits, text, s, stacks),
        Choice::AtColon => fetch_value(limits, text, s, stacks),
        _ => fetch_content(limits, text, c, s, n, stacks, bytes),
    }
}

// The same where more words are lent than the stacks: those behind them stay.
pub fn fetch_other(
    limits: Limits,
    text: &[u8],
    c: Choice,
    s: State,
    n: Counts,
    stacks: &mut [u32],
    bytes: &mut [u8],
) -> Result<Fetched, Refusal>
    requires { Chosen limits text.now stacks.old n.used s c × (is_brief c ≡ false) }
    ensures { Steps limits text.now stacks.old stacks.new bytes.old bytes.new n s c result }
{
    let first = stacks.first_chunk_mut::<STACK_WORDS>().unwrap();
    match_other(limits, text, c, s, n, first, bytes)
}

// Plain scalars, '-', brackets and ',' are brief: they say one token, behind an empty one or not.
pub fn is_brief(c: Choice) -> bool
    ensures { result ≡ is_brief c }
{
    matches!(
        c,
        Choice::AtPlain
            | Choice::AtDash
            | Choice::Opens { .. }
            | Choice::Closes { .. }
            | Choice::AtComma
    )
}

// A lexeme that is brief.
fn match_brief(
    limits: Limits,
    text: &[u8],
    c: Choice,
    s: State,
    n: Counts,
    stacks: &mut [u32; STACK_WORDS],
    bytes: &mut [u8],
) -> Result<Brief, Refusal>
    requires { Chosen limits text.now stacks.old n.used s c × (is_brief c ≡ true) }
    ensures { Steps limits text.now stacks.old stacks.new bytes.old bytes.new n s c (brief_fetched result) × (length stacks.new ≡ stack_words) }
{
    match c {
        Choice::AtPlain => Ok(fetch_plain_scalar(limits, text, s, n, stacks, bytes)),
        Choice::AtDash => fetch_block_entry(limits, text, s, stacks),
        Choice::Opens { sequence } => fetch_flow_collection_start(
            limits, text, sequence, s, n, stacks,
        ),
        Choice::Closes { sequence } => fetch_flow_collection_end(limits, text, sequence, s, stacks),
        _ => fetch_flow_entry(limits, text, s, stacks),
    }
}

// The same where more words are lent than the stacks: those behind them stay.
pub fn fetch_brief(
    limits: Limits,
    text: &[u8],
    c: Choice,
    s: State,
    n: Counts,
    stacks: &mut [u32],
    bytes: &mut [u8],
) -> Result<Brief, Refusal>
    requires { Chosen limits text.now stacks.old n.used s c × (is_brief c ≡ true) }
    ensures { Steps limits text.now stacks.old stacks.new bytes.old bytes.new n s c (brief_fetched result) }
{
    let first = stacks.first_chunk_mut::<STACK_WORDS>().unwrap();
    match_brief(limits, text, c, s, n, first, bytes)
}
