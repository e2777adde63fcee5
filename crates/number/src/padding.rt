// Padding: how `=` stands among base-64 characters, as a state that each of them moves. While no `=` has come it holds the last
// character, whose bits the `=` leave over.
ghost use Rattle.std.specs.Prelude.{◌≡◌};
ghost use Rattle.lexicon.proofs.Paddings.{next_state_of, opened as opened_of, pad as pad_of};
ghost use Rattle.number.specs.Padding.{code_of, next_of, unfit_of, Unpadded};

use crate::tally::Tally;
use text::digit::sextet;

#[derive(Clone, Copy)]
pub enum Padding {
    // No character yet.
    Start,
    // No `=` yet: the last character's byte.
    Character(u8),
    // Behind a `=`, and one more may come.
    OneMore,
    // Behind a `=`, and none may come.
    NoMore,
    // No bytes: more `=` than the bits before them allow, or another character behind a `=`.
    Unfit,
}

// Behind the first `=`, by the value of the character before it: each `=` leaves two of its bits over, and they must be zero.
fn opened(value: u32) -> Padding
    ensures { code_of result ≡ opened_of value }
{
    if value % 16 == 0 {
        return Padding::OneMore;
    }
    if value % 4 == 0 {
        return Padding::NoMore;
    }
    Padding::Unfit
}

impl Padding {
    // The state behind a `=` more; at the start it is as behind a character of value 0.
    fn padded(self) -> Padding
        ensures { code_of result ≡ pad_of (code_of self) }
    {
        match self {
            Padding::Start => Padding::OneMore,
            Padding::Character(b) => opened(sextet(b as u32)),
            Padding::OneMore => Padding::NoMore,
            Padding::NoMore | Padding::Unfit => Padding::Unfit,
        }
    }

    // The state behind a character more.
    fn next(self, b: u8) -> Padding
        ensures { code_of result ≡ next_state_of (code_of self) b }
    {
        if b == b'=' {
            return self.padded();
        }
        match self {
            Padding::Start | Padding::Character(_) => Padding::Character(b),
            _ => Padding::Unfit,
        }
    }

    // Whether the characters so far encode no bytes.
    pub(crate) fn is_unfit(self) -> bool
        ensures { result ≡ unfit_of self }
    {
        matches!(self, Padding::Unfit)
    }
}

// How many characters stand before the first `=`.
fn unpadded(digits: &[u8]) -> usize
    ensures { Unpadded digits.now result }
{
    let mut n = 0;
    while n < digits.len() {
        if digits[n] == b'=' {
            return n;
        }
        n += 1;
    }
    n
}

impl Tally for Padding {
    ghost more = { next_of };

    // Of the characters before the first `=` the last alone counts: the others are passed over, which costs less than a state for each.
    fn with(self, digits: &[u8]) -> Padding {
        let rest = &digits[unpadded(digits).saturating_sub(1)..];
        let mut state = self;
        for b in rest {
            state = state.next(*b);
        }
        state
    }
}
