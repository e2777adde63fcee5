// The token at a place of a text.
#![tactic(auto)]

pub mod bad;
mod literal;
pub mod next;
mod symbol;
pub mod whole;
mod zero;
