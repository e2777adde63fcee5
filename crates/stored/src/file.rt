// The stored file of a text, by the table of its reading: the writer stores its bytes, the checker compares them.
ghost use Rattle.std.specs.Prelude.{◌≡◌, ◌+◌, ◌*◌, ◌≤◌, ◌<◌, length, get_or};
ghost use Rattle.rules.specs.Test.{Says};
ghost use Rattle.grammar.specs.Nodes.{node_words};
ghost use Rattle.reading.specs.Sizes.{base};
ghost use Rattle.buffer.specs.Appends.{Appends};
ghost use Rattle.files.specs.File.{number, row, file};
ghost use Rattle.stored.specs.Holds.{Whenever};

use buffer::Writer;
use grammar::NODE_WORDS;

pub(crate) const MARK: [u8; 3] = *b"FNT";

pub(crate) const VERSION: usize = 1;

// Words of a node that are stored: the first of them.
const STORED: usize = 6;

// A 16-bit number, the high byte first.
pub(crate) fn number_bytes(n: usize) -> [u8; 2]
    ensures { result ≡ number 2 n }
{
    let [.., high, low] = n.to_be_bytes();
    [high, low]
}

// The file of a text with so many nodes and so many bytes, whose nodes stand first in the table.
#[derive(Clone, Copy)]
pub(crate) struct File<'a> {
    pub(crate) table: &'a [u32],
    pub(crate) nodes: usize,
    pub(crate) size: usize,
    pub(crate) ghost few: { nodes ≤ base.nodes },
    pub(crate) ghost held: { node_words * nodes ≤ length table.now },
}

impl File<'_> {
    // How many bytes it has: mark and three numbers, then six numbers a node.
    pub(crate) fn len(&self) -> usize
        ensures { result ≡ 9 + 12 * self.now.nodes }
    {
        MARK.len() + 2 * (3 + STORED * self.nodes)
    }

    // The number at an index behind the mark: version, nodes, the text's length, then the words of the nodes.
    fn number(&self, k: usize) -> usize
        requires { k < 3 + 6 * self.now.nodes }
        ensures { Whenever self.now.table.now self.now.nodes self.now.size (λ text v. result ≡ get_or (row text v) k 0) }
    {
        let front = [VERSION, self.nodes, self.size];
        if k < front.len() {
            return front[k];
        }
        let (node, word) = ((k - 3) / STORED, (k - 3) % STORED);
        self.table[node * NODE_WORDS + word] as usize
    }

    // The byte at a place.
    fn byte(&self, at: usize) -> u8
        requires { at < 9 + 12 * self.now.nodes }
        ensures { Whenever self.now.table.now self.now.nodes self.now.size (λ text v. result ≡ get_or (file text v) at 0) }
    {
        if at < MARK.len() {
            return MARK[at];
        }
        let behind = at - MARK.len();
        number_bytes(self.number(behind / 2))[behind % 2]
    }

    // All of it, behind what is written.
    pub(crate) fn write(&self, out: &mut Writer)
        ensures wrote { Whenever self.now.table.now self.now.nodes self.now.size (λ text v. Appends out.old (file text v) out.new) }
        ensures same_buffer { out.new.buffer.ghost_name ≡ out.old.buffer.ghost_name }
    {
        for at in 0..self.len() {
            out.put(self.byte(at));
        }
    }

    // Whether these are its bytes.
    pub(crate) fn is(&self, bytes: &[u8]) -> bool
        ensures { Whenever self.now.table.now self.now.nodes self.now.size (λ text v. Says result (bytes.now ≡ file text v)) }
    {
        if bytes.len() != self.len() {
            return false;
        }
        for (at, b) in bytes.iter().enumerate() {
            if *b != self.byte(at) {
                return false;
            }
        }
        true
    }
}
