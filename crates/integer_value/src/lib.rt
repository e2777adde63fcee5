// The value call for Integers: the signed 64-bit integer of an Integer literal.
#![tactic(auto)]

mod digits;
pub mod integer;
mod parts;
