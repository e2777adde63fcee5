// Given bytes at a place of a text.
ghost use Rattle.rules.specs.Test.{Says};
ghost use Rattle.rules.specs.Rule.{Takes, row};

use text::byte::stands;

// Whether exactly these bytes stand from one place to the other.
pub fn spells(text: &[u8], at: usize, end: usize, bytes: &[u8]) -> bool
    ensures { Says result (Takes text.now (row bytes.now) at end) }
{
    if end < at {
        return false;
    }
    if end - at != bytes.len() {
        return false;
    }
    // By hand, and no comparison of slices: so an edit that compares every byte with the first is refused by what it says of a byte.
    let mut k = 0;
    while k < bytes.len() {
        if !stands(text, at + k, bytes[k]) {
            return false;
        }
        k += 1;
    }
    true
}
