// What goes in before the token of a record.
ghost use Rattle.std.specs.Prelude.{◌≡◌};
ghost use Rattle.records.specs.Noted.{first_noted, noted, rest_noted};

use yaml_lexeme::Kind;

// In the order of the numbers that note it.
#[derive(Clone, Copy)]
pub enum Noted {
    Nothing,
    Key,
    // FlowMappingStart and Key.
    Pair,
    // BlockMappingStart and Key.
    Block,
}

impl From<u32> for Noted {
    ghost from_gives = { λ n r. r ≡ noted n };

    fn from(n: u32) -> Noted {
        match n {
            0 => Noted::Nothing,
            1 => Noted::Key,
            2 => Noted::Pair,
            _ => Noted::Block,
        }
    }
}

impl Noted {
    // The kind of the token that goes in first.
    pub fn first(self) -> Option<Kind>
        ensures { result ≡ first_noted self }
    {
        match self {
            Noted::Nothing => None,
            Noted::Key => Some(Kind::Key),
            Noted::Pair => Some(Kind::FlowMappingStart),
            Noted::Block => Some(Kind::BlockMappingStart),
        }
    }

    // What is left to go in behind that.
    pub fn rest(self) -> Noted
        ensures { result ≡ rest_noted self }
    {
        match self {
            Noted::Nothing | Noted::Key => Noted::Nothing,
            Noted::Pair | Noted::Block => Noted::Key,
        }
    }
}
