// What a literal's digits add up to, as far as the tokens need it: of a number its value, up to the limit; of base-64 characters, how
// they are padded; of the other digits, nothing.
ghost use Rattle.std.specs.Prelude.{◌≡◌, ℕ};
ghost use mathlib.Core.List.{foldl};
ghost use Rattle.number.specs.Tally.{value_more};

use lexicon::Base;
use text::digit::counted;

pub trait Tally: Copy + Drop {
    // With a digit more.
    ghost more: { Self → ℕ → Self };

    // With the digits of a run more.
    fn with(self, digits: &[u8]) -> Self
        ensures { result ≡ foldl more self digits.now };
}

impl Tally for () {
    ghost more = { λ sum _. sum };

    fn with(self, _digits: &[u8]) {}
}

// A number's base, and its value up to the limit.
#[derive(Clone, Copy)]
pub struct Value {
    pub base: Base,
    pub value: u32,
}

impl Tally for Value {
    ghost more = { value_more };

    fn with(self, digits: &[u8]) -> Value {
        Value {
            base: self.base,
            value: counted(self.base, self.value, digits),
        }
    }
}
