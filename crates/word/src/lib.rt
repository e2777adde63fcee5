// Bare words, which head word one is, and given bytes at a place.
#![tactic(auto)]

pub mod spelling;
pub mod word;
