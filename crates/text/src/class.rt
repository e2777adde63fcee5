// The byte sets, printed as one table of 256 classes. A byte's class is the sum of what each of its sets adds: 1 binary digit,
// 2 octal digit, 4 decimal digit, 8 one of 0-9A-F, 16 base-64 character, 32 may begin a word, 64 may continue one, 128 dividing.
ghost use Rattle.std.specs.Prelude.{◌≡◌};
ghost use Rattle.lexicon.specs.Bytes.{class_of, members};
ghost use Rattle.text.specs.Classes.{IsTable, in_sum};

use crate::run::Test;
use lexicon::Set;

// One constant array of 256 classes: a form that the project prescribes (docs/DECISIONS.md).
const CLASSES: [u8; 256] = [
    0, 0, 0, 0, 0, 0, 0, 0, 0, 128, 128, 0, 0, 128, 0, 0, 0, 0, 0, 0, 0, 0, 0, 0, 0, 0, 0, 0, 0, 0,
    0, 0, 128, 0, 0, 0, 0, 0, 0, 0, 0, 0, 0, 16, 0, 0, 0, 16, 95, 95, 94, 94, 94, 94, 94, 94, 92,
    92, 0, 0, 0, 16, 0, 0, 0, 120, 120, 120, 120, 120, 120, 112, 112, 112, 112, 112, 112, 112, 112,
    112, 112, 112, 112, 112, 112, 112, 112, 112, 112, 112, 112, 0, 0, 0, 0, 96, 0, 112, 112, 112,
    112, 112, 112, 112, 112, 112, 112, 112, 112, 112, 112, 112, 112, 112, 112, 112, 112, 112, 112,
    112, 112, 112, 112, 0, 0, 0, 0, 0, 0, 0, 0, 0, 0, 0, 0, 0, 0, 0, 0, 0, 0, 0, 0, 0, 0, 0, 0, 0,
    0, 0, 0, 0, 0, 0, 0, 0, 0, 0, 0, 0, 0, 0, 0, 0, 0, 0, 0, 0, 0, 0, 0, 0, 0, 0, 0, 0, 0, 0, 0, 0,
    0, 0, 0, 0, 0, 0, 0, 0, 0, 0, 0, 0, 0, 0, 0, 0, 0, 0, 0, 0, 0, 0, 0, 0, 0, 0, 0, 0, 0, 0, 0, 0,
    0, 0, 0, 0, 0, 0, 0, 0, 0, 0, 0, 0, 0, 0, 0, 0, 0, 0, 0, 0, 0, 0, 0, 0, 0, 0, 0, 0, 0, 0, 0, 0,
    0, 0, 0, 0, 0, 0, 0, 0, 0, 0, 0, 0,
];

// The table. Each use of the constant builds it anew, so a loop asks for it once.
pub fn classes() -> [u8; 256]
    ensures { IsTable result }
{
    CLASSES
}

// The class of one byte.
pub fn class(b: u8) -> u8
    ensures { result ≡ class_of b }
{
    classes()[b as usize]
}

// Whether what the set adds is in the class: the set's bit, in the order of the sets.
#[tactic(auto, unfolding(crate::specs::Classes::in_sum))]
pub fn holds(class: u8, set: Set) -> bool
    ensures { result ≡ in_sum set class }
{
    (class >> set as u8) % 2 == 1
}

// The bytes of a set, told by the table of classes, which is made once for a whole run.
#[derive(Drop)]
pub struct Members<'a> {
    pub classes: &'a [u8; 256],
    pub set: Set,
    pub ghost table: { IsTable classes.now },
}

impl Test for Members<'_> {
    ghost class = { λ m. members m.set };

    fn passes(&self, b: u8) -> bool {
        holds(self.classes[b as usize], self.set)
    }
}
