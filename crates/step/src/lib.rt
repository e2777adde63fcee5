// The moves of a reader inside a bracket: which table tells what a token does.
#![tactic(auto, using(moves::proofs::Moved::moved))]

mod behind;
mod lead;
pub mod step;
