// Fractions: a significand with a point or a slash, and an optional power.
ghost use Rattle.rules.specs.Rule.{◌then◌};
ghost use Rattle.lexicon.specs.Found.{Finds, Judges};
ghost use Rattle.lexicon.specs.Literals.{integer as integer_of, spaced, power as power_of};
ghost use Rattle.lexicon.specs.Parts.{SmallPower};
ghost use Rattle.number.specs.Fraction.{Pointed, Divided, Behind, NumeralAt};

use crate::Numeral;
use crate::integer::{Number, digits, integer, number_at, start};
use lexicon::{Base, Literal};
use space::space;
use text::byte::stands;

// The digits behind a significand's point, of the base that stands before it.
fn point(text: &[u8], at: usize, base: Base) -> Option<Literal>
    ensures { Pointed text.now base at result }
{
    let Number { end, .. } = digits(text, space(text, at), base)?;
    Some(Literal { end, bad: false })
}

// The denominator behind a significand's slash; 0 is bad.
fn ratio(text: &[u8], at: usize) -> Option<Literal>
    ensures { Divided text.now at result }
{
    let Number { end, value, .. } = number_at(text, space(text, at))?;
    Some(Literal {
        end,
        bad: value == 0,
    })
}

// The longest significand whose number was read to its end; one with denominator 0 is bad.
fn behind(text: &[u8], end: usize, base: Base) -> Option<Literal>
    ensures { Behind text.now base end result }
{
    let sign = space(text, end);
    match text.get(sign)? {
        b'.' => point(text, sign + 1, base),
        b'/' => ratio(text, sign + 1),
        _ => None,
    }
}

// The radix and the exponent of a power: `^` and an Integer behind the number.
fn exponent(text: &[u8], at: usize) -> Option<usize>
    ensures { Finds text.now (spaced "^" then integer_of) at result }
{
    let sign = space(text, at);
    if !stands(text, sign, b'^') {
        return None;
    }
    integer(text, space(text, sign + 1))
}

// The power behind a significand; one with a radix below 2 is bad.
fn power(text: &[u8], at: usize) -> Option<Literal>
    ensures { Judges text.now power_of (SmallPower text.now) at result }
{
    let sign = space(text, at);
    if !stands(text, sign, b'*') {
        return None;
    }
    let Number { end, value, .. } = number_at(text, space(text, sign + 1))?;
    let end = exponent(text, end)?;
    Some(Literal {
        end,
        bad: value < 2,
    })
}

// The Fraction at a place, or else the Integer: both begin with one number, which is read once.
pub fn numeral(text: &[u8], at: usize) -> Option<Numeral>
    ensures { NumeralAt text.now at result }
{
    let Number { base, end, .. } = number_at(text, start(text, at))?;
    let Some(significand) = behind(text, end, base) else {
        return Some(Numeral::Integer(end));
    };
    let Some(power) = power(text, significand.end) else {
        return Some(Numeral::Fraction(significand));
    };
    Some(Numeral::Fraction(Literal {
        end: power.end,
        bad: significand.bad | power.bad,
    }))
}
