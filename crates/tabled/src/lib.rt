// A text with its table: the reading, then whether the table shows what the reading writes.
// A function with a `requires` is this crate's own. `judge`, the public one, has none.
#![tactic(auto)]

ghost use Rattle.std.specs.Prelude.{◌≡◌, ◌*◌, min, length};
ghost use Rattle.grammar.specs.Nodes.{node_words};
ghost use Rattle.reading.specs.Sizes.{base};
ghost use Rattle.reading.specs.Tabled.{Judges};

use grammar::NODE_WORDS;
use reading::{Answer, Refusal, Refused, TABLE};
use tree::read::read;

// Reads into a table of its own, with as much room, and compares.
fn compared(level: u32, text: &[u8], table: &[u32], own: &mut [u32]) -> Answer
    requires { length own.old ≡ min (base.nodes * node_words) (length table.now) }
    ensures { Judges base text.now table.now level result }
{
    let answer = read(level, text, own);
    // By the number: what a reading promises (`Answers`) is told by it.
    if answer.number != 0 {
        return answer;
    }
    let words = answer.count * NODE_WORDS;
    if own[..words] == table[..words] {
        return answer;
    }
    Answer::from(Refused {
        refusal: Refusal::NotTheFile,
        place: 0,
    })
}

// Judges a text with its table: a refusal of the reading, room judged by the table; 14 for a table whose first words are not what the
// reading writes; else the reading's answer. Words behind those are not looked at.
pub fn judge(level: u32, text: &[u8], table: &[u32]) -> Answer
    ensures { Judges base text.now table.now level result }
{
    let mut own = [0; TABLE];
    let words = table.len().min(TABLE);
    compared(level, text, table, &mut own[..words])
}
