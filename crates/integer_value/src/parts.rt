// What stands before an Integer's digits: its sign, and the mark of its base.
ghost use Rattle.integer_value.specs.Parts.{SignOf, MarkOf};

use lexicon::Base;
use number::integer::mark_at;
use space::space;
use text::byte::stands;

// Whether the sign of the piece is a minus, and where the number behind it begins.
pub(crate) fn sign(piece: &[u8]) -> (bool, usize)
    ensures { SignOf piece.now result.0 result.1 }
{
    let minus = stands(piece, 0, b'-');
    if minus || stands(piece, 0, b'+') {
        return (minus, space(piece, 1));
    }
    (minus, 0)
}

// The base that the mark at a place tells, and where the digits begin: behind it and dividing space; without a mark they are decimal
// and begin here.
pub(crate) fn mark(piece: &[u8], at: usize) -> (Base, usize)
    ensures { MarkOf piece.now at result.0 result.1 }
{
    match mark_at(piece, at) {
        Some(base) => (base, space(piece, at + 2)),
        None => (Base::Ten, at),
    }
}
