// The nodes of a table, by index.
ghost use Rattle.std.specs.Prelude.{◌≡◌, ◌/◌, ◌<◌, length};
ghost use Rattle.grammar.specs.Nodes.{node_words, role_word, word_at};
ghost use Rattle.plain.specs.Nodes.{Inside, Tells, Past, Behind};

use grammar::{DETAIL, END, FIRST, KIND, NODE_WORDS, ROLE, SKIP};
use leaf::Node;
use marks::THAT_BEFORE;

// A table of nodes, by its words.
#[derive(Clone, Copy)]
pub(crate) struct Nodes<'a> {
    pub(crate) words: &'a [u32],
}

impl Nodes<'_> {
    pub(crate) fn count(&self) -> usize
        ensures { result ≡ length self.now.words.now / node_words }
    {
        self.words.len() / NODE_WORDS
    }

    fn word(&self, index: usize, k: usize) -> u32
        requires { Inside self.now.words.now index × (k < node_words) }
        ensures { result ≡ word_at self.now.words.now index k }
    {
        self.words[index * NODE_WORDS + k]
    }

    pub(crate) fn node_at(&self, index: usize) -> Node
        requires { Inside self.now.words.now index }
        ensures { Tells self.now.words.now index result }
    {
        Node {
            kind: self.word(index, KIND),
            first: self.word(index, FIRST) as usize,
            end: self.word(index, END) as usize,
            detail: self.word(index, DETAIL),
        }
    }

    pub(crate) fn role(&self, index: usize) -> u32
        requires { Inside self.now.words.now index }
        ensures { result ≡ word_at self.now.words.now index role_word }
    {
        self.word(index, ROLE)
    }

    // The index just past the node's last descendant, as its word tells: in any table it is behind the node, and at most the count of
    // nodes. Where no node is at the index, it is the index itself.
    pub(crate) fn past(&self, index: usize) -> usize
        ensures { Past self.now.words.now index result }
    {
        let all = self.count();
        if index >= all {
            return index;
        }
        let told = self.word(index, SKIP) as usize;
        told.clamp(index + 1, all)
    }

    // The index behind a child that ends at `then`: behind the this too where the that stands before it.
    pub(crate) fn behind(&self, role: u32, then: usize) -> usize
        ensures { Behind self.now.words.now role then result }
    {
        if role == THAT_BEFORE {
            return self.past(then);
        }
        then
    }
}
