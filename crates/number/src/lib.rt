// The numeric literals: Integer, Fraction, Bits and Blob.
#![tactic(auto)]

pub mod blob;
pub mod fraction;
mod groups;
pub mod integer;
mod padding;
mod tally;

use lexicon::Literal;

// The literal that begins with a number: a Fraction, or else an Integer, with its end.
#[derive(Drop)]
pub enum Numeral {
    Integer(usize),
    Fraction(Literal),
}
