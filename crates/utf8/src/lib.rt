// UTF-8, by the Unicode Standard's table of well-formed byte sequences.
#![tactic(auto)]

ghost use Rattle.std.specs.Prelude.{[], ◌∷◌};
ghost use Rattle.rules.specs.Class.{◌upto◌};
ghost use Rattle.rules.specs.Rule.{◌then◌, many, Longest};
ghost use Rattle.lexicon.specs.Found.{Finds};
ghost use Rattle.lexicon.specs.Utf8;
ghost use Rattle.lexicon.specs.Steps.{eight, TestedAs};

use eight::ascii;
use lexicon::{NotUtf8, Tested};
use text::byte::within;
use text::run::{Test, run};

// The place behind a byte from `low` to `high`, if one stands at `at`.
fn byte(text: &[u8], at: usize, low: u8, high: u8) -> Option<usize>
    ensures { Finds text.now (Utf8.range low high) at result }
{
    within(text, at, low, high).then(|| at + 1)
}

// The last byte of a sequence.
fn last(text: &[u8], at: usize) -> Option<usize>
    ensures { Finds text.now Utf8.tail at result }
{
    byte(text, at, 0x80, 0xBF)
}

// The last two, of which the first is from `low` to `high`.
fn last_two(text: &[u8], at: usize, low: u8, high: u8) -> Option<usize>
    ensures { Finds text.now (Utf8.range low high then Utf8.tail) at result }
{
    last(text, byte(text, at, low, high)?)
}

// The last three, of which the first is from `low` to `high`.
fn last_three(text: &[u8], at: usize, low: u8, high: u8) -> Option<usize>
    ensures { Finds text.now (Utf8.range low high then Utf8.tail then Utf8.tail) at result }
{
    last_two(text, byte(text, at, low, high)?, 0x80, 0xBF)
}

// The end of the well-formed sequence that begins at `at`. The first byte tells the length, and what the second may be.
pub fn sequence(text: &[u8], at: usize) -> Option<usize>
    ensures { Finds text.now Utf8.sequence at result }
{
    match *text.get(at)? {
        0x00..=0x7F => Some(at + 1),
        0xC2..=0xDF => last(text, at + 1),
        0xE0 => last_two(text, at + 1, 0xA0, 0xBF),
        0xE1..=0xEC => last_two(text, at + 1, 0x80, 0xBF),
        0xED => last_two(text, at + 1, 0x80, 0x9F),
        0xEE..=0xEF => last_two(text, at + 1, 0x80, 0xBF),
        0xF0 => last_three(text, at + 1, 0x90, 0xBF),
        0xF1..=0xF3 => last_three(text, at + 1, 0x80, 0xBF),
        0xF4 => last_three(text, at + 1, 0x80, 0x8F),
        _ => None,
    }
}

// Where the eights of plain ASCII bytes at `at` end.
fn eights(text: &[u8], at: usize) -> usize
    ensures { Longest text.now (many eight) at result }
{
    let mut i = at;
    while ascii(text, i) {
        i += 8;
    }
    i
}

// A plain ASCII byte.
struct Ascii;

impl Test for Ascii {
    ghost class = { λ _. 0x00 upto 0x7F ∷ [] };

    #[tactic(auto, unfolding(rules::specs::Class::has))]
    fn passes(&self, b: u8) -> bool {
        b < 0x80
    }
}

// Where the plain ASCII bytes at `at` end.
fn singles(text: &[u8], at: usize) -> usize
    ensures { Longest text.now (many (Utf8.range 0x00 0x7F)) at result }
{
    run(text, at, &Ascii)
}

// Whether the text is well-formed sequences from the front; if not, where the first bad one begins; and the steps up to there.
pub fn tested(text: &[u8]) -> Tested
    ensures { TestedAs text.now result }
{
    // A step takes eight bytes, one, or a whole sequence, so no range counts them.
    let mut at = 0;
    let mut steps = 0;
    while at < text.len() {
        let behind = eights(text, at);
        steps += (behind - at) / 8;
        // Fewer than eight are left before a byte above 7F or the end, and each is a step of its own.
        let end = singles(text, behind);
        steps += end - behind;
        at = end;
        // Behind a longer sequence another is likely: no look for eight at each.
        while within(text, at, 0x80, 0xFF) {
            let Some(next) = sequence(text, at) else {
                return Tested {
                    encoding: Err(NotUtf8 { at }),
                    steps,
                };
            };
            at = next;
            steps += 1;
        }
    }
    Tested {
        encoding: Ok(()),
        steps,
    }
}

// The answer without the steps.
pub fn utf8(text: &[u8]) -> Result<(), NotUtf8>
    ensures { Utf8.Encoded text.now result }
{
    tested(text).encoding
}
