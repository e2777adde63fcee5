// Digit groups: units of so many bytes of a set, side by side or joined by one `_` or one stretch of dividing space.
// A function with a `requires` is this crate's own: the table that it is lent is the classes', made by its caller.
ghost use Rattle.std.specs.Prelude.{◌≤◌};
ghost use Rattle.rules.specs.Rule.{many, Longest};
ghost use Rattle.lexicon.specs.Bytes.{members};
ghost use Rattle.lexicon.specs.Literals.{unit};
ghost use Rattle.text.specs.Classes.{IsTable};
ghost use Rattle.number.specs.Groups.{OfDigits, Grouped};

use crate::tally::Tally;
use lexicon::Set;
use space::joint::joint;
use text::class::{Members, classes};
use text::run::run;

// The end of the longest row of groups and the sum over its digits.
#[derive(Drop)]
pub struct Groups<T> {
    pub end: usize,
    pub sum: T,
}

// Where the units that stand side by side end: bytes that make no whole unit are left.
fn units(text: &[u8], at: usize, set: Set, width: usize, classes: &[u8; 256]) -> usize
    requires { (1 ≤ width) × IsTable classes.now }
    ensures { Longest text.now (many (unit width (members set))) at result }
{
    let end = run(text, at, &Members { classes, set });
    // Bytes are whole units: a number's digits cost no division.
    if width == 1 {
        return end;
    }
    at + (end - at) / width * width
}

// The longest row of units from a place. The table of classes is made once, for all of them. Never inlined: the table would lie in the frame
// of each caller, on top of those that it calls.
#[inline(never)]
pub(crate) fn longest_row<T: Tally>(
    text: &[u8],
    at: usize,
    set: Set,
    width: usize,
    start: T,
) -> Option<Groups<T>>
    requires { (1 ≤ width) × OfDigits set }
    ensures { Grouped T.more start text.now set width at result }
{
    let classes = classes();
    let mut end = units(text, at, set, width, &classes);
    if end == at {
        return None;
    }
    let mut sum = start.with(&text[at..end]);
    // By hand: a turn goes on by a joint and the units behind it, or ends without either.
    loop {
        let next = joint(text, end);
        // Without a joint the row ends here: no unit stands behind the last.
        if next == end {
            return Some(Groups { end, sum });
        }
        let stop = units(text, next, set, width, &classes);
        if stop == next {
            return Some(Groups { end, sum });
        }
        sum = sum.with(&text[next..stop]);
        end = stop;
    }
}
