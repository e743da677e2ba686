// The escapes of double quotes and the percent escapes of tags: each is one character with its place, or a refusal.
#![tactic(auto)]

pub mod answer;
pub mod escape;
mod hex;
pub mod percent;
