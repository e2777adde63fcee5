// The plain form of a node without children: a literal, a Text or a Nesting.
// A function with a `requires` is this crate's own. `leaf`, the public one, has none.
#![tactic(auto)]

mod bare;
mod names;
mod spelling;

ghost use Rattle.buffer.specs.Appends.{AppendsPart};
ghost use Rattle.leaf.specs.Leaves.{LeafBytes};

use crate::bare::bare;
use crate::names::names;
use buffer::Writer;

// Of the kinds without children those below Text are literals, and a Nesting comes behind it.
const TEXT: u32 = 7;

// What a node tells of itself, with its kind's number.
#[derive(Drop)]
pub struct Node {
    pub kind: u32,
    pub first: usize,
    pub end: usize,
    pub detail: u32,
}

// A node that is no bracket, if its bytes are of the text.
#[tactic(auto, using(crate::proofs::Spellings::bare_leaf))]
pub fn leaf(text: &[u8], node: Node, out: &mut Writer)
    ensures { AppendsPart (LeafBytes text.now node) out.old out.new }
{
    let Node {
        kind,
        first,
        end,
        ..
    } = node;
    if end > text.len() || first > end {
        return;
    }
    if kind < TEXT {
        bare(&text[first..end], out);
    } else {
        names(text, first, end, out);
    }
}
