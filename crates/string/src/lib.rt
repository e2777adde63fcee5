// Text literals: code points by their numbers, quoted texts.
#![tactic(auto)]

pub mod code_point;
pub mod quoted;
mod segment;
