// The moves between `[` and `]`: an Interval's bounds.
#![tactic(auto, using(moves::proofs::Moved::moved))]

pub mod behind;
pub mod bounded;
mod bounds;
pub mod lead;
