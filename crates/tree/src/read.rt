// The reading: tests 1, 2 and 3 over the whole text, then the tokens from left to right, last the room.
// A function with a `requires` is this crate's own: the text's length is tested before it is called.
ghost use Rattle.std.specs.Prelude.{◌≤◌, length};
ghost use Rattle.reading.specs.Sizes.{base, old_rules, widest};
ghost use Rattle.reading.specs.Answers.{Answers};
ghost use Rattle.tree.specs.Whole.{Judged, Told, answered};

use crate::start::Start;
use crate::value::value;
use begin::Reader;
use level::level_of;
use look::answer::{Read, get, unformed};
use look::end::ended;
use moves::Forms;
use reading::{Answer, BASE, OLD_RULES, Refusal, Refused, Rules};
use table::room;
use token::whole::{front, utf8};

// The value of a text, whose nodes stand from the table's start on. It is a reader, with the let else of value.rt.
fn whole(reader: &Reader<'_>, table: &mut [u32]) -> Result<Read, Refused>
    requires { length reader.now.text.now ≤ widest }
    ensures { Judged reader.now.text.now reader.now.limits reader.now.forms table.old table.new result }
{
    let got = get(reader.text, front(reader.text));
    let Ok(t) = got else {
        return Err(got.unwrap_err());
    };
    let start = Start {
        token: t,
        index: 0,
        parent: 0,
    };
    let read = value(reader, &start, 0, table);
    let Ok(first) = read else {
        return read;
    };
    ended(reader.text, first.end, read)
}

// The text is judged and its nodes counted before the lent table is written.
fn tokens(rules: Rules, text: &[u8], forms: Forms, table: &mut [u32]) -> Result<Answer, Refused>
    requires { (rules.text ≤ widest) × (length text.now ≤ rules.text) }
    ensures { Told text.now rules forms table.old table.new result }
{
    let reader = Reader {
        text,
        limits: rules.limits,
        forms,
    };
    let mut none = [0; 0];
    let judged = whole(&reader, &mut none);
    let Ok(Read { nodes, .. }) = judged else {
        return Err(judged.unwrap_err());
    };
    if nodes > room(rules, table) {
        return Ok(Answer::no_room(text.len(), nodes));
    }
    let _written = whole(&reader, table);
    Ok(Answer::accepted(text.len(), nodes))
}

// The tests in their order; a text that is refused leaves the table as it is.
fn tests(rules: Rules, number: u32, text: &[u8], table: &mut [u32]) -> Result<Answer, Refused>
    requires { rules.text ≤ widest }
    ensures { Answers rules text.now table.old number (answered result) table.new }
{
    let named = level_of(number);
    let Ok(forms) = named else {
        return Err(named.unwrap_err());
    };
    if text.len() > rules.text {
        return Err(Refused {
            refusal: Refusal::TooLong,
            place: 0,
        });
    }
    let formed = unformed(utf8(text));
    let Ok(()) = formed else {
        return Err(formed.unwrap_err());
    };
    tokens(rules, text, forms, table)
}

// The reading of a text at a level, by rules that this reader can follow.
fn reading(rules: Rules, number: u32, text: &[u8], table: &mut [u32]) -> Answer
    requires { rules.text ≤ widest }
    ensures { Answers rules text.now table.old number result table.new }
{
    let tested = tests(rules, number, text, table);
    let Ok(answer) = tested else {
        return Answer::from(tested.unwrap_err());
    };
    answer
}

// The reading of a text at a level by the rules of today: the answer, and the nodes in the lent table.
pub fn read(number: u32, text: &[u8], table: &mut [u32]) -> Answer
    ensures { Answers base text.now table.old number result table.new }
{
    reading(BASE, number, text, table)
}

// The same by the old rules, under which `<-` may be read.
pub fn read_old(number: u32, text: &[u8], table: &mut [u32]) -> Answer
    ensures { Answers old_rules text.now table.old number result table.new }
{
    reading(OLD_RULES, number, text, table)
}
