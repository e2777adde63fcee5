// Bits and Blobs: a mark of three bytes, and digits behind it if there are any.
// A function with a `requires` is this crate's own: its set is one of digits.
ghost use Rattle.std.specs.Prelude.{◌≤◌};
ghost use Rattle.lexicon.specs.Found.{Finds, Judges};
ghost use Rattle.lexicon.specs.Literals.{bits as bits_of, blob as blob_of};
ghost use Rattle.lexicon.specs.Bad.{NoBytes};
ghost use Rattle.number.specs.Groups.{OfDigits};
ghost use Rattle.number.specs.Blob.{Marked, TailOf};

use crate::groups::{Groups, longest_row};
use crate::padding::Padding;
use crate::tally::Tally;
use lexicon::{Literal, Set};
use space::space;
use text::byte::stands;

// The third byte of a mark at a place: of `0`, this letter and one more.
fn third(text: &[u8], at: usize, letter: u8) -> Option<u8>
    ensures { Marked text.now at letter result }
{
    if !stands(text, at, b'0') || !stands(text, at + 1, letter) {
        return None;
    }
    text.get(at + 2).copied()
}

// The digits behind a mark. Dividing space that leads to none is not taken.
fn tail_at<T: Tally>(text: &[u8], at: usize, set: Set, width: usize, start: T) -> Groups<T>
    requires { (1 ≤ width) × OfDigits set }
    ensures { TailOf T.more start text.now set width at result.end result.sum }
{
    match longest_row(text, space(text, at), set, width, start) {
        Some(groups) => groups,
        None => Groups {
            end: at,
            sum: start,
        },
    }
}

// The Bits literal at a place.
pub fn bits(text: &[u8], at: usize) -> Option<usize>
    ensures { Finds text.now bits_of at result }
{
    match third(text, at, b'b')? {
        b'b' => Some(tail_at(text, at + 3, Set::Binary, 1, ()).end),
        b'o' => Some(tail_at(text, at + 3, Set::Octal, 1, ()).end),
        b'x' => Some(tail_at(text, at + 3, Set::Hexadecimal, 1, ()).end),
        _ => None,
    }
}

// The Blob literal at a place; one that has no bytes is bad, which only one in base 64 can be.
pub fn blob(text: &[u8], at: usize) -> Option<Literal>
    ensures { Judges text.now blob_of (NoBytes text.now) at result }
{
    match third(text, at, b'x')? {
        b'b' => Some(Literal {
            end: tail_at(text, at + 3, Set::Binary, 8, ()).end,
            bad: false,
        }),
        b'x' => Some(Literal {
            end: tail_at(text, at + 3, Set::Hexadecimal, 2, ()).end,
            bad: false,
        }),
        b'y' => {
            let Groups { end, sum } = tail_at(text, at + 3, Set::Base64, 4, Padding::Start);
            Some(Literal {
                end,
                bad: sum.is_unfit(),
            })
        }
        _ => None,
    }
}
