// What a step knows, by value: its stacks are lent beside it.
#![tactic(auto)]

ghost use Rattle.std.specs.Prelude.{◌≡◌, ◌+◌, ◌^◌, ◌<◌, ◌≤◌, length};
ghost use Rattle.yaml_scan.specs.Keys.{stale};
ghost use Rattle.stacks.specs.Stack.{entry_words};
ghost use Rattle.events.specs.Event.{closing_of};
ghost use Rattle.states.specs.State.{behind_of, required_of, s_adjacent_here, s_begin, s_moved, s_with_indents, s_with_level};
ghost use Rattle.states.specs.Key.{Lapses, Removes, Saves};
ghost use Rattle.states.specs.declared.Fetched.TheVariants as fetched;

use chars::mark::Place;
use chars::refuse::refuse;
use events::{Event, closing};
use reading::Lexeme;
use stacks::STACK_WORDS;
use stacks::frame::{clear_key, key, set_key};
use stacks::indent::{Indents, top_ends};
use yaml_lexeme::Token;
use yaml_scan::Candidate;
use yaml_text::{Mark, Refusal};

#[derive(Clone, Copy)]
pub struct State {
    // Index + 1 directly after a quoted scalar's or closing bracket's span; 0: none. A number, as in the definition's state,
    // which this one is compared with field by field.
    pub adjacent_value_allowed_at: u32,
    pub indents: Indents,
    pub place: Place,
    // Its candidate and its data are in the frame of that number.
    pub flow_level: usize,
    // Only blanks stand between the line's start and here.
    pub leading_whitespace: bool,
    pub simple_key_allowed: bool,
}

// What was said, with the state behind it; or the same at the end of the text.
#[derive(Clone, Copy)]
pub enum Fetched {
    Goes(Event, State),
    Ends(Event),
}

// What says one token, and the state behind it: a token behind the end of an implicit pair or not; '-' behind the start of
// its block or not.
#[derive(Clone, Copy)]
pub enum Brief {
    Goes {
        state: State,
        pair: bool,
        token: Token,
    },
    Enters {
        state: State,
        starts: bool,
        token: Token,
    },
}

impl State {
    // StreamStart was given.
    pub fn begin() -> Self
        ensures { result ≡ s_begin }
    {
        let p = Place::start();
        let i = Indents {
            indent: 0,
            depth: 0,
        };
        State {
            place: p,
            leading_whitespace: true,
            simple_key_allowed: true,
            indents: i,
            flow_level: 0,
            adjacent_value_allowed_at: 0,
        }
    }

    // At another place, where a simple key is allowed or not.
    // Put together from its fields, as a mark is: so that each is loaded as it was stored.
    pub fn moved(self, p: Place, leads: bool, allowed: bool) -> Self
        ensures { result ≡ s_moved self p leads allowed }
    {
        let i = self.indents;
        let m = p.mark;
        State {
            leading_whitespace: leads,
            simple_key_allowed: allowed,
            adjacent_value_allowed_at: self.adjacent_value_allowed_at,
            indents: Indents {
                indent: i.indent,
                depth: i.depth,
            },
            place: Place {
                at: p.at,
                mark: anew(m),
            },
            flow_level: self.flow_level,
        }
    }

    // The same state, put together anew.
    pub fn anew(self) -> Self
        ensures { result ≡ self }
    {
        let p = self.place;
        self.moved(p, self.leading_whitespace, self.simple_key_allowed)
    }

    pub fn with_indents(self, i: Indents) -> Self
        ensures { result ≡ s_with_indents self i }
    {
        let mut s = self;
        s.indents = i;
        s
    }

    pub fn with_level(self, level: usize) -> Self
        ensures { result ≡ s_with_level self level }
    {
        let mut s = self;
        s.flow_level = level;
        s
    }

    // ':' may stand directly after what was read up to here (K5).
    pub fn adjacent_here(self) -> Self
        requires { self.place.mark.index < 2 ^ 31 }
        ensures { result ≡ s_adjacent_here self }
    {
        let mut s = self;
        s.adjacent_value_allowed_at = s.place.mark.index + 1;
        s
    }

    // Whether a candidate here is required: at the block's own column, at level 0.
    fn requires_key(self, stacks: &[u32; STACK_WORDS]) -> bool
        requires { (self.place.mark.col ≤ 1_048_576) × (self.indents.depth ≤ length stacks.now) }
        ensures { result ≡ required_of stacks.now self }
    {
        if 0 < self.flow_level {
            return false;
        }
        if self.indents.indent != self.place.mark.col + 1 {
            return false;
        }
        top_ends(stacks, self.indents.depth)
    }

    // K2: the candidate of this level, which would be the token of that number.
    pub fn save_key(self, count: u32, stacks: &mut [u32; STACK_WORDS])
        requires { (self.flow_level ≤ 255) × (self.indents.depth ≤ entry_words) × (self.place.mark.col ≤ 1_048_576) }
        ensures { Saves stacks.old stacks.new count self }
    {
        if self.simple_key_allowed {
            let required = self.requires_key(stacks);
            set_key(stacks, self.flow_level, required, count, self.place.mark)
        }
    }

    // Whether the candidate's line is over, or 1,024 characters are.
    fn is_stale(self, m: Mark) -> bool
        ensures { result ≡ stale m self.place.mark }
    {
        let here = self.place.mark;
        if m.line < here.line {
            return true;
        }
        if here.index < m.index {
            return false;
        }
        1024 < here.index - m.index
    }

    // K2: this level's candidate goes.
    pub fn remove_key(self, stacks: &mut [u32; STACK_WORDS])
        requires { (self.flow_level ≤ 255) × (self.indents.depth ≤ entry_words) }
        ensures { Removes stacks.old stacks.new self }
    {
        clear_key(stacks, self.flow_level);
    }

    // K2: the check before each token; in flow no candidate lapses. 41: a required one does.
    pub fn lapse_key(self, stacks: &mut [u32; STACK_WORDS]) -> Result<(), Refusal>
        requires { (self.flow_level ≤ 255) × (self.indents.depth ≤ entry_words) }
        ensures { Lapses stacks.old stacks.new self result }
    {
        if 0 < self.flow_level {
            return Ok(());
        }
        let Candidate::Possible {
            required,
            token_number: _,
            mark,
        } = key(stacks, self.flow_level)
        else {
            return Ok(());
        };
        if !self.is_stale(mark) {
            return Ok(());
        }
        if required {
            return refuse(41, self.place.mark);
        }
        self.remove_key(stacks);
        Ok(())
    }
}

// The same mark, put together anew: a copy loads at once what was stored in parts, and waits for them.
fn anew(m: Mark) -> Mark
    ensures { result ≡ m }
{
    Mark {
        index: m.index,
        line: m.line,
        col: m.col,
    }
}

// Behind a lexeme that was read from the place p on.
pub fn behind(p: Place, next: Place) -> Place
    requires { p.at + next.at < 2 ^ 63 }
    ensures { result ≡ behind_of p next }
{
    let m = next.mark;
    Place {
        at: p.at + next.at,
        mark: anew(m),
    }
}

// One token, and on from behind it.
pub fn emit_lexeme(s: State, l: Lexeme, leads: bool, allowed: bool) -> Fetched
    requires { s.place.at + l.next.at < 2 ^ 63 }
    ensures { result ≡ fetched.Goes (closing_of 0 l.token) (s_moved s (behind_of s.place l.next) leads allowed) }
{
    Fetched::Goes(
        closing(0, l.token),
        s.moved(behind(s.place, l.next), leads, allowed),
    )
}
