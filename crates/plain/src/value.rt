// A node holds children and a child holds nodes: the two writers call each other, each time for later nodes.
ghost use Rattle.buffer.specs.Appends.{AppendsPart};
ghost use Rattle.plain.specs.Nodes.{NodeBytes, ChildBytes};

use crate::node::Nodes;
use buffer::Writer;
use leaf::leaf;
use marks::{Attributes, PAIR, THAT_BEFORE, close, counted, lead, open, tail};

// A text, and the table of its nodes.
#[derive(Clone, Copy)]
pub(crate) struct Source<'a> {
    pub(crate) text: &'a [u8],
    pub(crate) nodes: Nodes<'a>,
}

impl Source<'_> {
    // The plain form of the branch at the index.
    // (Measure: twice the words from the node on. Loop: stop - i falls.)
    #[cycle(child_write_node)]
    pub(crate) fn write_node(&self, index: usize, out: &mut Writer)
        ensures { AppendsPart (NodeBytes self.now.text.now self.now.nodes.words.now index) out.old out.new }
    {
        let nodes = self.nodes;
        if index >= nodes.count() {
            return;
        }
        let node = nodes.node_at(index);
        let kind = node.kind;
        if kind < PAIR {
            return leaf(self.text, node, out);
        }
        let detail = node.detail;
        let first = index + 1;
        let stop = nodes.past(index);
        open(kind, out);
        let mut before = 0;
        let mut done = Attributes::No;
        // A child has as many descendants as it has, so no range counts the indices.
        let mut i = first;
        while i < stop {
            let role = nodes.role(i);
            lead(detail, before, role, out);
            self.child(role, i, out);
            done = counted(done, role);
            before = role;
            i = nodes.behind(role, nodes.past(i));
        }
        tail(kind, detail, done, out);
        close(kind, out);
    }

    // A child; of `b<-a`, whose that stands before, the this, which stands behind it, `:` and the that.
    // (Measure: twice the words from the node on, and one.)
    #[cycle(child_write_node)]
    fn child(&self, role: u32, index: usize, out: &mut Writer)
        ensures { AppendsPart (ChildBytes self.now.text.now self.now.nodes.words.now role index) out.old out.new }
    {
        if role != THAT_BEFORE {
            return self.write_node(index, out);
        }
        let that = index;
        let this = self.nodes.past(that);
        self.write_node(this, out);
        out.put(b':');
        self.write_node(that, out);
    }
}
