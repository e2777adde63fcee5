// The listing of an answer, written into a lent buffer.
// A function with a `requires` is this crate's own: the words that it reads are those of an accepted reading, so they are inside the
// table. `list`, the one public function, has none.
#![tactic(auto)]

ghost use Rattle.std.specs.Prelude.{[], ◌∷◌, ◌++◌, ◌+◌, ◌*◌, ◌≤◌, length};
ghost use Rattle.grammar.specs.Nodes.{node_words, word_at};
ghost use Rattle.buffer.specs.Appends.{Appends};
ghost use Rattle.listing.specs.Listing.{space, decimal, fields, node_line, longest_line, node_lines};
ghost use Rattle.listing.specs.Written.{Listed};

use buffer::Writer;
use grammar::NODE_WORDS;
use reading::NODES;

// A node's line: each of its words has ten digits at most, and a space or the line's end behind it.
const LINE: usize = NODE_WORDS * 11;

// The longest listing: a first line of 45 bytes at most, and the lines of all nodes that a reading may have.
pub const LONGEST: usize = 45 + NODES * LINE;

// The number in decimal.
fn number(out: &mut Writer, n: u64)
    ensures { Appends out.old (decimal n) out.new }
{
    let mut digits = itoa::Buffer::new();
    out.copy(digits.format(n).as_bytes());
}

// A space, and the number.
fn field(out: &mut Writer, n: u64)
    ensures { Appends out.old (space ∷ decimal n) out.new }
{
    out.put(b' ');
    number(out, n);
}

// A line: a word of two letters and two numbers.
fn head(out: &mut Writer, word: &[u8; 2], m: u64, n: u64)
    ensures { Appends out.old (word.now ++ fields (m ∷ n ∷ [])) out.new }
{
    out.copy(word);
    field(out, m);
    field(out, n);
    out.put(b'\n');
}

// The line of the node at the index.
fn node(out: &mut Writer, table: &[u32], index: usize)
    requires { index * node_words + node_words ≤ length table.now }
    ensures { Appends out.old (node_line (λ k. word_at table.now index k)) out.new }
{
    let first = index * NODE_WORDS;
    let others = &table[first + 1..first + NODE_WORDS];
    number(out, u64::from(table[first]));
    for word in others {
        field(out, u64::from(*word));
    }
    out.put(b'\n');
}

// The lines of the table's first nodes.
fn nodes(out: &mut Writer, table: &[u32], count: usize)
    requires { count * node_words ≤ length table.now }
    ensures wrote { Appends out.old (node_lines table.now count) out.new }
    ensures short { length (node_lines table.now count) ≤ longest_line * count }
{
    for index in 0..count {
        node(out, table, index);
    }
}

// Reads the text at a level, and writes the listing at the buffer's start.
pub fn list(level: u32, text: &[u8], table: &mut [u32], out: &mut [u8; LONGEST]) -> usize
    ensures { Listed level text.now table.old table.new out.old out.new result }
{
    let answer = tree::read::read(level, text, table);
    let mut writer = Writer::new(out);
    // By the number: what a reading promises (`Answers`) is told by it.
    if answer.number != 0 {
        head(
            &mut writer,
            b"no",
            u64::from(answer.number),
            answer.place as u64,
        );
        return writer.at;
    }
    head(&mut writer, b"ok", u64::from(level), answer.count as u64);
    nodes(&mut writer, table, answer.count);
    writer.at
}
