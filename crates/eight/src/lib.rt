// Eight bytes of a text at one step: read as one number they are tested all at once. What is computed of the number is computed
// of each byte, since no sum of a byte reaches the next, and the answer stands in the bytes' high bits.
#![tactic(auto)]

pub mod run;
#[cfg(test)]
mod tests;

ghost use Rattle.std.specs.Prelude.{◌+◌, ◌<◌, length, MatchOption};
ghost use Rattle.rules.specs.Test.{Says};
ghost use Rattle.rules.specs.Rule.{Takes};
ghost use Rattle.lexicon.specs.Space.{not_grave};
ghost use Rattle.lexicon.specs.Literals.{unit, plain_byte};
ghost use Rattle.lexicon.specs.Steps;
ghost use Rattle.eight.specs.Joined.{Joins};

// Times a byte, that byte eight times.
const EACH: u64 = 0x0101_0101_0101_0101;

// The high bit of each byte, and the others.
const HIGH: u64 = 0x80 * EACH;

const LOW: u64 = 0x7F * EACH;

// What has a meaning in a comment or a quoted text.
const QUOTE: u64 = 0x22 * EACH;

const BACKSLASH: u64 = 0x5C * EACH;

const GRAVE: u64 = 0x60 * EACH;

// Added to bytes below 0x80, it sets the high bit of those from the space on.
const FROM_SPACE: u64 = (0x80 - 0x20) * EACH;

// The eight bytes from `at` on as one number, the first the least, if as many stand.
fn eight(text: &[u8], at: usize) -> Option<u64>
    ensures { MatchOption result (length text.now < at + 8) (λ w. Joins text.now at 8 w) }
{
    let bytes = text.get(at..)?.first_chunk()?;
    Some(u64::from_le_bytes(*bytes))
}

// Whether eight plain ASCII bytes stand from `at` on.
pub fn ascii(text: &[u8], at: usize) -> bool
    ensures { Says result (Takes text.now Steps.eight at (at + 8)) }
{
    eight(text, at).is_some_and(|w| w & HIGH == 0)
}

// Whether eight bytes stand from `at` on, none of them the grave accent: a byte of `x` is 0 for that one only.
pub fn no_grave(text: &[u8], at: usize) -> bool
    ensures { Says result (Takes text.now (unit 8 not_grave) at (at + 8)) }
{
    eight(text, at).is_some_and(|w| {
        let x = w ^ GRAVE;
        ((x & LOW) + LOW | x) & HIGH == HIGH
    })
}

// Whether eight bytes stand from `at` on that may stand in any quoted text and mean themselves: ASCII from the space on, but three.
#[tactic(auto, using(crate::proofs::Sums::sums))]
pub fn plain(text: &[u8], at: usize) -> bool
    ensures { Says result (Takes text.now (unit 8 plain_byte) at (at + 8)) }
{
    eight(text, at).is_some_and(|w| {
        let v = w & LOW;
        let others = (v ^ QUOTE) + LOW & (v ^ BACKSLASH) + LOW & (v ^ GRAVE) + LOW;
        v + FROM_SPACE & others & (w ^ HIGH) & HIGH == HIGH
    })
}
