// What one lexeme says, by value, and how it is counted.
#![tactic(auto)]

ghost use Rattle.std.specs.Prelude.{◌≡◌, ◌<◌, ◌^◌};
ghost use Rattle.reading.specs.Reading.{text_size};
ghost use Rattle.events.specs.Event.{Countable, brief_event, closing_of, counted_of, note_size, opening_if, opening_size};

use chars::pick::pick;
use yaml_lexeme::{Kind, Token};

// What goes in before the candidate, which is the token of that number.
#[derive(Clone, Copy)]
pub enum Note {
    Nothing,
    Key(u32),
    // FlowMappingStart and Key.
    Pair(u32),
    // BlockMappingStart and Key.
    Block(u32),
}

// An empty token that comes first.
#[derive(Clone, Copy)]
pub enum Opening {
    Nothing,
    BlockSequenceStart,
    BlockMappingStart,
    FlowMappingStart,
    FlowMappingEnd,
}

// What one lexeme says: so many blocks end, an empty token, the token. All of them at the token's start.
#[derive(Clone, Copy)]
pub struct Event {
    pub closed: u32,
    pub note: Note,
    pub opening: Opening,
    pub token: Token,
}

// How many tokens were given so far, without those put in; how many were put in; how many bytes of text.
#[derive(Clone, Copy)]
pub struct Counts {
    pub count: u32,
    pub put_in: u32,
    pub used: u32,
}

// How many tokens a note puts in.
fn note_count(n: Note) -> u32
    ensures { result ≡ note_size n }
{
    match n {
        Note::Nothing => 0,
        Note::Key(_) => 1,
        Note::Pair(_) => 2,
        Note::Block(_) => 2,
    }
}

fn opening_count(o: Opening) -> u32
    ensures { result ≡ opening_size o }
{
    match o {
        Opening::Nothing => 0,
        Opening::BlockSequenceStart
        | Opening::BlockMappingStart
        | Opening::FlowMappingStart
        | Opening::FlowMappingEnd => 1,
    }
}

// How many bytes the texts of a kind take.
#[tactic(auto, unfolding(reading::specs::Reading::text_size))]
fn text_len(k: Kind) -> u32
    requires { text_size k < 2 ^ 32 }
    ensures { result ≡ text_size k }
{
    match k {
        Kind::TagDirective { handle, prefix } => handle.len + prefix.len,
        Kind::Alias(a) => a.len,
        Kind::Anchor(a) => a.len,
        Kind::Tag { handle, suffix } => handle.len + suffix.len,
        Kind::Scalar { style: _, text } => text.len,
        Kind::ReservedDirective { name, parameters } => name.len + parameters.len,
        _ => 0,
    }
}

impl Counts {
    // One event more.
    pub fn counting(self, e: Event) -> Self
        requires { Countable self e }
        ensures { result ≡ counted_of self e }
    {
        Counts {
            count: self.count + (e.closed + opening_count(e.opening) + 1),
            put_in: self.put_in + note_count(e.note),
            used: self.used + text_len(e.token.kind),
        }
    }
}

pub fn opening_if(b: bool, o: Opening) -> Opening
    ensures { result ≡ opening_if b o }
{
    pick(b, o, Opening::Nothing)
}

// What is said of one token, behind an empty one or not.
pub fn brief_event(led: bool, o: Opening, t: Token) -> Event
    ensures { result ≡ brief_event led o t }
{
    Event {
        note: Note::Nothing,
        closed: 0,
        opening: opening_if(led, o),
        token: t,
    }
}

// What is said of a token behind so many ends of blocks.
pub fn closing(n: u32, t: Token) -> Event
    ensures { result ≡ closing_of n t }
{
    Event {
        note: Note::Nothing,
        closed: n,
        opening: Opening::Nothing,
        token: t,
    }
}
