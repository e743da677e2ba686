// Exit statuses. They are numbers, since the system takes them so and `zero_done` of `jobs` speaks of the number 0.

// Done, with at least one seed; a text that is accepted; help that was asked for.
pub const DONE: u8 = 0;

// Refused.
pub const NOT_DONE: u8 = 1;

// Wrong arguments, or input that could not be read to its end.
pub const UNREAD: u8 = 2;

// Output that could not be written.
pub const UNWRITTEN: u8 = 3;

// Done by the rules, but no seed.
pub const EMPTY: u8 = 4;
