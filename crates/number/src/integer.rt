// Numbers without a sign, in their four bases, and Integers.
ghost use Rattle.lexicon.specs.Found.{Finds};
ghost use Rattle.lexicon.specs.Literals.{integer as integer_of};
ghost use Rattle.lexicon.specs.Parts.{Start};
ghost use Rattle.number.specs.Number.{Marks, OfBase, MarkedNumber, Numbered};

use crate::groups::{Groups, longest_row};
use crate::tally::Value;
use lexicon::Base;
use space::space;
use text::byte::stands;
use text::digit::{base_of, digit_set};

// A number's base, the place behind it, and its value up to the limit.
#[derive(Drop)]
pub struct Number {
    pub base: Base,
    pub end: usize,
    pub value: u32,
}

// The base of the mark at a place: `0` and the base's letter.
pub fn mark_at(text: &[u8], at: usize) -> Option<Base>
    ensures { Marks text.now at result }
{
    if !stands(text, at, b'0') {
        return None;
    }
    base_of(*text.get(at + 1)?)
}

// The digits of a base from a place on, as a number.
pub(crate) fn digits(text: &[u8], at: usize, base: Base) -> Option<Number>
    ensures { OfBase text.now base at result }
{
    let start = Value { base, value: 0 };
    let Groups { end, sum } = longest_row(text, at, digit_set(base), 1, start)?;
    Some(Number {
        base,
        end,
        value: sum.value,
    })
}

// The digits behind a mark.
fn marked(text: &[u8], at: usize) -> Option<Number>
    ensures { MarkedNumber text.now at result }
{
    let base = mark_at(text, at)?;
    digits(text, space(text, at + 2), base)
}

// The longest number without a sign. A mark whose digits do not come is a decimal 0.
pub(crate) fn number_at(text: &[u8], at: usize) -> Option<Number>
    ensures { Numbered text.now at result }
{
    marked(text, at).or_else(|| digits(text, at, Base::Ten))
}

// Where the number of an Integer or a Fraction begins: behind its sign and dividing space.
pub(crate) fn start(text: &[u8], at: usize) -> usize
    ensures { Start text.now at result }
{
    if stands(text, at, b'+') || stands(text, at, b'-') {
        return space(text, at + 1);
    }
    at
}

// The Integer at a place.
pub fn integer(text: &[u8], at: usize) -> Option<usize>
    ensures { Finds text.now integer_of at result }
{
    let Number { end, .. } = number_at(text, start(text, at))?;
    Some(end)
}
