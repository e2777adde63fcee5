// The value call for Texts: the characters of a Text literal as UTF-8.
#![tactic(auto)]

mod bytes;
mod code;
mod quoted;
pub mod value;
