// Bare words, and which of the thirteen head words one is.
ghost use Rattle.lexicon.specs.Found.{Finds};
ghost use Rattle.lexicon.specs.Literals;
ghost use Rattle.word.specs.Heads.{Tells};

use lexicon::{Form, Head, Set};
use text::class::{Members, classes, holds};
use text::run::run;

// Where the word at the place ends.
pub fn word(text: &[u8], at: usize) -> Option<usize>
    ensures { Finds text.now Literals.word at result }
{
    let classes = classes();
    let first = *text.get(at)?;
    if !holds(classes[first as usize], Set::WordStart) {
        return None;
    }
    let rest = Members {
        classes: &classes,
        set: Set::WordRest,
    };
    Some(run(text, at + 1, &rest))
}

// The head words, each by its spelling. A comparison looks at the length first, so the order matters little: with `Excuse` last, a
// name of six bytes is passed over soonest.
const HEADS: [(&[u8], Head); 13] = [
    (b"Array", Head::Array),
    (b"Set", Head::Set),
    (b"Bag", Head::Bag),
    (b"Mix", Head::Mix),
    (b"Interval_Set", Head::IntervalSet),
    (b"Interval_Bag", Head::IntervalBag),
    (b"Tuple_Array", Head::TupleArray),
    (b"Relation", Head::Relation),
    (b"Tuple_Bag", Head::TupleBag),
    (b"Renaming", Head::Renaming),
    (b"Article", Head::Article),
    (b"Heading", Head::Heading),
    (b"Excuse", Head::Excuse),
];

// Which head word stands from one place to the other, if any.
pub fn form(text: &[u8], at: usize, end: usize) -> Form
    ensures { Tells text.now at end result }
{
    // Each head word begins with a capital letter, and most words don't: these need no look at the table.
    let Some(b'A'..=b'Z') = text.get(at) else {
        return Form::Word;
    };
    let Some(word) = text.get(at..end) else {
        return Form::Word;
    };
    for (spelling, head) in HEADS.iter() {
        if word == *spelling {
            return Form::HeadWord(*head);
        }
    }
    Form::Word
}
