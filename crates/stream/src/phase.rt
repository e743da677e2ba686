// How far a stream is: the word PHASE of what is held.
ghost use Rattle.std.specs.Prelude.{◌≡◌};
ghost use Rattle.stream.specs.Phase.{phase_of};

// In the order of the numbers that are held. A state of zeros is fresh.
#[derive(Clone, Copy)]
pub(crate) enum Phase {
    Fresh,
    Scanning,
    // StreamEnd was scanned.
    Closed,
    // Any other number too.
    Refused,
}

impl From<u32> for Phase {
    ghost from_gives = { λ n p. p ≡ phase_of n };

    fn from(n: u32) -> Phase {
        match n {
            0 => Phase::Fresh,
            1 => Phase::Scanning,
            2 => Phase::Closed,
            _ => Phase::Refused,
        }
    }
}
