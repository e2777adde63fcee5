// Code points by their numbers.
ghost use Rattle.rules.specs.Test.{Says};
ghost use Rattle.lexicon.specs.Found.{Judges};
ghost use Rattle.lexicon.specs.Literals.{code_point_of};
ghost use Rattle.lexicon.specs.Bad.{Scalar, BadCode};
ghost use Rattle.string.specs.Parts;
ghost use Rattle.string.specs.Parts.{BadNumber, Counts};

use lexicon::{Base, Literal};
use text::byte::stands;
use text::class::{classes, holds};
use text::digit::{base_of, digit_set, limited, radix};

// A row of digits: where it ends, and its number up to the limit.
#[derive(Drop)]
struct Run {
    end: usize,
    code: u32,
}

// Whether the number is none of a code point.
fn outside(code: u32) -> bool
    ensures { Says result (Scalar code → ⊥) }
{
    char::from_u32(code).is_none()
}

// The digits of the base from the place on, in one pass: a text may be full of them. Always inlined, as `number` is, so that of decimal
// ones, which most are, the radix is known.
#[inline(always)]
fn count(text: &[u8], at: usize, base: Base) -> Run
    ensures { Counts text.now base at result.end result.code }
{
    let classes = classes();
    let set = digit_set(base);
    let n = radix(set);
    let mut code = 0;
    // By hand: each turn moves both what ends the row and what it adds up to.
    let mut i = at;
    while i < text.len() {
        let b = text[i];
        if !holds(classes[b as usize], set) {
            return Run { end: i, code };
        }
        code = limited(code, n, b);
        i += 1;
    }
    Run { end: i, code }
}

// Where the number at the place ends, and whether it is none of a code point.
#[inline(always)]
fn number(text: &[u8], at: usize, base: Base) -> Option<Literal>
    ensures { Judges text.now (Parts.number base) (BadNumber text.now base) at result }
{
    let Run { end, code } = count(text, at, base);
    if end == at {
        return None;
    }
    Some(Literal {
        end,
        bad: outside(code),
    })
}

// Where the code point at the place ends, and whether its number is none.
pub fn code_point(text: &[u8], at: usize) -> Option<Literal>
    ensures { Judges text.now code_point_of (BadCode text.now) at result }
{
    if !stands(text, at, b'0') || !stands(text, at + 1, b'c') {
        return None;
    }
    let mark = at + 2;
    match base_of(*text.get(mark)?) {
        Some(base) => number(text, at + 3, base),
        None => number(text, mark, Base::Ten),
    }
}
