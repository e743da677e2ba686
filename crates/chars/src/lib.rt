// Characters, their classes, blocks of bytes, places in a text, and what every reader above answers with.
#![tactic(auto)]

pub mod block;
pub mod class;
pub mod code;
pub mod mark;
pub mod pick;
pub mod refuse;
