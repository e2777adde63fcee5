// The moves between `(` and `)`: groups, Pairs and Tuples.
#![tactic(auto, using(moves::proofs::Moved::moved))]

pub mod behind;
pub mod joint;
pub mod lead;
