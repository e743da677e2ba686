// The header of a block scalar, and the margin before its content.
#![tactic(auto)]

pub mod header;
pub mod margin;
