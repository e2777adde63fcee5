// The number of a code point literal. A function with a `requires` is this crate's own: its caller has found the literal.
ghost use Rattle.std.specs.Prelude.{◌+◌, ◌<◌, length};
ghost use Rattle.rules.specs.Rule.{lit, Takes};
ghost use Rattle.lexicon.specs.Literals.{code_point_of};
ghost use Rattle.lexicon.specs.Parts.{Marked};
ghost use Rattle.text_value.specs.Parts.{CodeIs};

use lexicon::Base;
use text::digit::{base_of, counted};

// The base that the mark at a place tells, and where the digits begin: without a letter behind `0c` they are decimal and begin there.
fn mark(piece: &[u8], at: usize) -> (Base, usize)
    requires { Takes piece.now (lit "0c") at (at + 2) × (at + 2 < length piece.now) }
    ensures { Marked piece.now at result.0 result.1 }
{
    match base_of(piece[at + 2]) {
        Some(base) => (base, at + 3),
        None => (Base::Ten, at + 2),
    }
}

// The number of the literal from one place to the other, up to the limit.
pub(crate) fn code(piece: &[u8], at: usize, end: usize) -> u32
    requires { Takes piece.now code_point_of at end }
    ensures { CodeIs piece.now at end result }
{
    let (base, start) = mark(piece, at);
    counted(base, 0, &piece[start..end])
}
