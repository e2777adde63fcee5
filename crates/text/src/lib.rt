// One byte of a text: where it stands, its class, and the number that it stands for as a digit.
#![tactic(auto)]

pub mod byte;
pub mod class;
pub mod digit;
pub mod run;
