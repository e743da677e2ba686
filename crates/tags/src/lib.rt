// K8: tags (20, 25, 26); anchors and aliases (27).
#![tactic(auto)]

pub mod anchor;
pub mod tag;
