// From tokens to the node table.
#![tactic(auto)]

mod bracket;
mod leaf;
pub mod read;
mod start;
mod value;
