// The number of a literal's digits, if it fits. The functions with a `requires` are this crate's own: their caller has found the
// literal.
ghost use Rattle.std.specs.Prelude.{◌+◌, ◌*◌, ◌^◌, ◌<◌, SomeIff};
ghost use Rattle.lexicon.specs.Bytes.{radix as radix_of};
ghost use Rattle.lexicon.specs.Values.{digit as digit_of};
ghost use Rattle.integer_value.specs.Parts.{Ends, Total};

use lexicon::Base;
use space::joint::joint;
use text::digit::{digit, digit_set, radix};

// A number with one digit more.
fn longer(size: u64, base: Base, b: u8) -> Option<u64>
    ensures { SomeIff result (size * radix_of base + digit_of b < 2 ^ 64) (size * radix_of base + digit_of b) }
{
    let n = u64::from(radix(digit_set(base)));
    size.checked_mul(n)?.checked_add(digit(b))
}

// The number of the digits from the place to the end of the piece.
pub(crate) fn total(piece: &[u8], at: usize, base: Base) -> Option<u64>
    requires { Ends piece.now base at }
    ensures { Total piece.now base at result }
{
    let mut sum = 0;
    let mut i = at;
    // A loop by hand: how far off the next digit stands, only reading the joint tells.
    loop {
        sum = longer(sum, base, piece[i])?;
        i += 1;
        if i == piece.len() {
            return Some(sum);
        }
        i = joint(piece, i);
    }
}
