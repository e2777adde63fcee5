// The digits of a literal, unit by unit, as bytes. The functions have a `requires` each: their caller has found the
// literal.
ghost use Rattle.std.specs.Prelude.{◌≡◌, ◌≤◌};
ghost use mathlib.Core.List.{foldl};
ghost use Rattle.lexicon.specs.Values.{read};
ghost use Rattle.buffer.specs.Appends.{Appends};
ghost use Rattle.blob_value.specs.Marks.{size_of};
ghost use Rattle.blob_value.specs.Spread.{with_digit, parts, Small, HasUnits, Counts, Units, Has, Spreads};

use crate::Kind;
use crate::mark::{Mark, digit_value, part};
use buffer::Writer;
use space::joint::joint;

// The digits of a unit as one number.
fn number(piece: &[u8], at: usize, count: usize, radix: u64) -> u64
    requires { Small piece.now at count radix }
    ensures { result ≡ foldl (with_digit radix) 0 (read piece.now at count) }
{
    let mut sum: u64 = 0;
    for b in &piece[at..at + count] {
        sum = sum * radix + digit_value(radix, *b);
    }
    sum
}

// A number as so many bytes, most significant first.
fn spread(number: u64, count: usize, kind: Kind, out: &mut Writer)
    requires { count ≤ 8 }
    ensures { Appends out.old (parts (size_of kind) count number) out.new }
{
    for behind in (0..count).rev() {
        out.put(part(number, behind, kind));
    }
}

// How many units of so many digits stand from a place to the end of the piece.
pub(crate) fn count(piece: &[u8], at: usize, unit: usize) -> usize
    requires { HasUnits piece.now unit at }
    ensures { Counts piece.now unit at result }
{
    let mut i = at;
    let mut n = 0;
    // A loop by hand: how far off the next unit stands, only reading the joint tells.
    loop {
        n += 1;
        i += unit;
        if i == piece.len() {
            return n;
        }
        i = joint(piece, i);
    }
}

// The units from a place to the end of the piece, as bytes.
pub(crate) fn units(piece: &[u8], at: usize, mark: Mark, out: &mut Writer)
    requires { Has (Units piece.now mark at) }
    ensures { Spreads mark (Units piece.now mark at) out.old out.new }
{
    let width = mark.unit();
    let radix = mark.radix();
    let filled = mark.bytes();
    let kind = mark.kind();
    let mut i = at;
    // A loop by hand, as in `count`.
    loop {
        spread(number(piece, i, width, radix), filled, kind, out);
        i += width;
        if i == piece.len() {
            return;
        }
        i = joint(piece, i);
    }
}
