// Digits: the base that a letter names, the set of its digits, the number that each stands for, and the number of a row of them,
// counted up to a limit.
ghost use Rattle.std.specs.Prelude.{◌≡◌};
ghost use mathlib.Core.List.{foldl};
ghost use Rattle.lexicon.specs.Bytes.{digit_set_of, radix as radix_of};
ghost use Rattle.lexicon.specs.Parts.{size, sextet as sextet_of};
ghost use Rattle.lexicon.specs.Values.{digit as digit_of};
ghost use Rattle.lexicon.specs.Limited.{limited as limited_of};
ghost use Rattle.text.specs.Letters.{Letters};

use lexicon::{Base, Set};

// From it on a number is no code point, no denominator 0 and no radix below 2.
pub const LIMIT: u32 = 0x11_0000;

// The base that a letter names, if it names one.
pub fn base_of(b: u8) -> Option<Base>
    ensures { Letters b result }
{
    match b {
        b'b' => Some(Base::Two),
        b'o' => Some(Base::Eight),
        b'd' => Some(Base::Ten),
        b'x' => Some(Base::Sixteen),
        _ => None,
    }
}

// The digits of a base. No `From`: they are no other form of the base.
pub fn digit_set(base: Base) -> Set
    ensures { result ≡ digit_set_of base }
{
    match base {
        Base::Two => Set::Binary,
        Base::Eight => Set::Octal,
        Base::Ten => Set::Decimal,
        Base::Sixteen => Set::Hexadecimal,
    }
}

// How many digits a set of digits has; 0 for another set.
pub fn radix(set: Set) -> u32
    ensures { result ≡ size set }
{
    match set {
        Set::Binary => 2,
        Set::Octal => 8,
        Set::Decimal => 10,
        Set::Hexadecimal => 16,
        Set::Base64 | Set::WordStart | Set::WordRest | Set::Dividing => 0,
    }
}

// The number that a digit stands for.
pub fn digit(b: u8) -> u64
    ensures { result ≡ digit_of b }
{
    match b {
        // Most digits are these, so one test tells them.
        b'0'..=b'9' => (b - b'0') as u64,
        ..b'0' => 0,
        _ => (b - (b'A' - 10)) as u64,
    }
}

// The number that a base-64 character stands for. Its byte comes as a wider number, as the sums of digits are.
#[tactic(auto, using(std::proofs::lemmas::Bool::Decides::nat_tests), unfolding(lexicon::specs::Parts::sextet))]
pub fn sextet(b: u32) -> u32
    ensures { result ≡ sextet_of b }
{
    // By hand: a `match` tests the rare characters first.
    if b >= 0x61 {
        return b - 0x61 + 26;
    }
    if b >= 0x41 {
        return b - 0x41;
    }
    if b >= 0x30 {
        return b - 0x30 + 52;
    }
    if b == 0x2B {
        return 62;
    }
    63
}

// A number with one digit more, up to the limit.
#[tactic(auto, unfolding(lexicon::specs::Limited::limited))]
pub fn limited(sum: u32, radix: u32, b: u8) -> u32
    ensures { result ≡ limited_of radix sum b }
{
    let next = sum as u64 * radix as u64 + digit(b);
    // A branch, and no `min`: it is as good as never taken, and the next digit waits for no choice between two numbers.
    if next < LIMIT as u64 {
        return next as u32;
    }
    LIMIT
}

// The number of digits behind those of a sum, up to the limit.
pub fn counted(base: Base, sum: u32, digits: &[u8]) -> u32
    ensures { result ≡ foldl (limited_of (radix_of base)) sum digits.now }
{
    let radix = radix(digit_set(base));
    let mut number = sum;
    for b in digits {
        // A number at the limit stays there, whatever digits follow.
        if number == LIMIT {
            break;
        }
        number = limited(number, radix, *b);
    }
    number
}
