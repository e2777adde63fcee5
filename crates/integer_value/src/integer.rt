// The call itself: the refusals in their order, then the value.
// A function with a `requires` is this crate's own: its caller has tested the piece. `integer`, the public one, has none.
ghost use Rattle.std.specs.Prelude.{cond, pos, neg_ℤ, SomeIff};
ghost use Rattle.reading.specs.Sizes.{base as rules};
ghost use Rattle.lexicon.specs.Literals.{integer as integer_of};
ghost use Rattle.values.specs.Exactly.{Exactly};
ghost use Rattle.values.specs.Integer.{Within, IntegerAnswers};
ghost use Rattle.integer_value.specs.Parts.{Valued, Judged};

use crate::digits::total;
use crate::parts::{mark, sign};
use piece::{NOT_THE_LITERAL, sound};
use reading::{Refusal, Refused};
use values::IntegerAnswer;

// The integer by sign and size, if it is within.
fn signed(minus: bool, size: u64) -> Option<i64>
    ensures { SomeIff result (Within (cond minus (neg_ℤ (pos size)) (pos size))) (cond minus (neg_ℤ (pos size)) (pos size)) }
{
    if minus {
        return 0i64.checked_sub_unsigned(size);
    }
    0i64.checked_add_unsigned(size)
}

// The integer of a piece that is a literal, if it is within.
fn literal(piece: &[u8]) -> Option<i64>
    requires { Exactly integer_of piece.now }
    ensures { Valued piece.now result }
{
    let (minus, begin) = sign(piece);
    let (base, start) = mark(piece, begin);
    let size = total(piece, start, base)?;
    signed(minus, size)
}

// The integer, or the first refusal.
fn value(piece: &[u8]) -> Result<i64, Refused>
    ensures { Judged piece.now rules result }
{
    sound(piece)?;
    if number::integer::integer(piece, 0) != Some(piece.len()) {
        return Err(NOT_THE_LITERAL);
    }
    literal(piece).ok_or(Refused {
        refusal: Refusal::OutOfRange,
        place: 0,
    })
}

// The integer of a piece that is exactly one Integer literal.
pub fn integer(piece: &[u8]) -> IntegerAnswer
    ensures { IntegerAnswers rules piece.now result }
{
    match value(piece) {
        Ok(value) => IntegerAnswer::accepted(piece.len(), value),
        Err(refused) => refused.into(),
    }
}
