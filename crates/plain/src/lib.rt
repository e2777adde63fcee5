// The plain form of a text, from its table of nodes: no byte-order mark, first line, comments, dividing space, groups or `_` between
// digits; a pair is this, `:`, that.
// A function with a `requires` is this crate's own. `write` and `convert`, the public ones, have none.
#![tactic(auto)]

mod node;
mod value;

ghost use Rattle.reading.specs.Sizes.{base, old_rules};
ghost use Rattle.form.specs.Writes.{Writes, Converts};
ghost use Rattle.plain.specs.Nodes.{NodeBytes};
ghost use Rattle.plain.specs.Calls.{Filled, Fitted};
ghost use Rattle.buffer.specs.Wrote.{Wrote};

use crate::node::Nodes;
use crate::value::Source;
use buffer::Writer;
use grammar::NODE_WORDS;
use reading::{Answer, TABLE};
use tabled::judge;
use tree::read::read_old;

// The plain form of the nodes, from the buffer's start on, and how many bytes it has.
fn put_plain(text: &[u8], nodes: &[u32], buffer: &mut [u8]) -> usize
    ensures { Wrote (NodeBytes text.now nodes.now 0) buffer.old 0 buffer.new result }
{
    let mut out = Writer::new(buffer);
    let source = Source {
        text,
        nodes: Nodes { words: nodes },
    };
    source.write_node(0, &mut out);
    out.at
}

// The plain form of the nodes, into a buffer that has room for it.
fn fill(text: &[u8], nodes: &[u32], buffer: &mut [u8]) -> Answer
    ensures { Filled text.now nodes.now buffer.old result buffer.new }
{
    Answer::accepted(text.len(), put_plain(text, nodes, buffer))
}

// The plain form of the nodes, if it fits. It is measured first, over an empty part of the buffer, so that nothing is written where it
// does not; but it is at most twice as long as the text, so that a buffer of that length needs no measuring.
fn fit(text: &[u8], nodes: &[u32], buffer: &mut [u8]) -> Answer
    ensures { Fitted text.now nodes.now buffer.old result buffer.new }
{
    if buffer.len() / 2 >= text.len() {
        return fill(text, nodes, buffer);
    }
    let needed = put_plain(text, nodes, &mut buffer[..0]);
    if buffer.len() < needed {
        return Answer::no_room(text.len(), needed);
    }
    fill(text, nodes, buffer)
}

// Writes the plain form of a text, read at a level, with its table.
pub fn write(level: u32, text: &[u8], table: &[u32], buffer: &mut [u8]) -> Answer
    ensures { Writes base text.now table.now buffer.old level result buffer.new }
{
    let judged = judge(level, text, table);
    // By the number: what a judgement promises (`Judges`) is told by it.
    if judged.number != 0 {
        return judged;
    }
    let words = judged.count * NODE_WORDS;
    fit(text, &table[..words], buffer)
}

// Writes the plain form of a text, read at a level by the old rules: today's take it.
pub fn convert(level: u32, text: &[u8], buffer: &mut [u8]) -> Answer
    ensures { Converts old_rules text.now buffer.old level result buffer.new }
{
    let mut table = [0; TABLE];
    let answer = read_old(level, text, &mut table);
    // By the number: what a reading promises (`Answers`) is told by it.
    if answer.number != 0 {
        return answer;
    }
    let words = answer.count * NODE_WORDS;
    fit(text, &table[..words], buffer)
}
