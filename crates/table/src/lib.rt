// Nodes in the lent table of words, one behind the other. It is a slice of words, and no slice of nodes, since C lends it so.
#![tactic(auto)]

ghost use Rattle.std.specs.Prelude.{◌≡◌, ◌+◌, ◌*◌, ◌≤◌, length};
ghost use Rattle.rules.specs.Over.{over};
ghost use Rattle.grammar.specs.Nodes.{node_words};
ghost use Rattle.reading.specs.Sizes.{room as room_of};
ghost use Rattle.table.specs.Over.{under, capped as capped_of, entry_words, Stored, Assigned, Raised};

use grammar::{NODE_WORDS, PARENT, ROLE, SKIP};
use moves::Role;
use reading::Rules;

// The largest word.
const LARGEST: usize = 0xFFFF_FFFF;

// A node: its kind's word (any, as `put` promises to write it: docs/CONTRACTS.md; an enum would ask more of callers), first byte, byte after the last, parent's index, role, detail, index just past its last descendant.
#[derive(Clone, Copy)]
pub struct Entry {
    pub kind: u32,
    pub first: u32,
    pub end: u32,
    pub parent: u32,
    pub role: Role,
    pub detail: u32,
    pub skip: u32,
}

impl Entry {
    ghost use Rattle.table.specs.Over.{entry_words};

    // The words of the node, in the table's order.
    fn words(self) -> [u32; NODE_WORDS]
        ensures { result ≡ entry_words self }
    {
        [
            self.kind,
            self.first,
            self.end,
            self.parent,
            self.role as u32,
            self.detail,
            self.skip,
        ]
    }
}

// How many nodes the table has room for.
pub fn room(rules: Rules, table: &[u32]) -> usize
    ensures { result ≡ room_of rules (length table.now) }
{
    let nodes = table.len() / NODE_WORDS;
    nodes.min(rules.nodes)
}

// Writes the node at the index, if it fits.
pub fn put(table: &mut [u32], index: usize, node: Entry)
    ensures { Stored table.old table.new index (entry_words node) }
{
    if index >= table.len() / NODE_WORDS {
        return;
    }
    let at = index * NODE_WORDS;
    table[at..at + NODE_WORDS].copy_from_slice(&node.words());
}

// Changes the role of the node at the index, if it fits. Root stands for no change.
pub fn assign(table: &mut [u32], index: usize, role: Role)
    ensures { Assigned table.old table.new index role }
{
    if role == Role::Root || index >= table.len() / NODE_WORDS {
        return;
    }
    let at = index * NODE_WORDS + ROLE;
    table[at] = role as u32;
}

// The number as a word holds it.
fn capped(number: usize) -> u32
    ensures { result ≡ capped_of number }
{
    number.min(LARGEST) as u32
}

// One more, as a word holds it.
fn next(word: u32) -> u32
    ensures { result ≡ capped_of (word + 1) }
{
    capped(word as usize + 1)
}

// Copies the node at the index to the next one, under another parent: its descendants, too, are then one further. The caller saw that
// both are inside the table.
fn lift(table: &mut [u32], index: usize, parent: u32)
    requires { (index + 2) * node_words ≤ length table.old }
    ensures { table.new ≡ over table.old ((index + 1) * node_words) (under table.old index parent) }
{
    let at = index * NODE_WORDS;
    let to = at + NODE_WORDS;
    let skip = next(table[at + SKIP]);
    table.copy_within(at..to, to);
    table[to + PARENT] = parent;
    table[to + SKIP] = skip;
}

// Moves so many nodes, the first at the index, up by one, if they fit: each other's indices are one more, and the first's parent is what
// stands at the index from now on.
pub fn raise(table: &mut [u32], index: usize, nodes: usize)
    ensures { Raised table.old table.new index nodes }
{
    let room = table.len() / NODE_WORDS;
    if index >= room {
        return;
    }
    if nodes >= room - index {
        return;
    }
    if nodes == 0 {
        return;
    }
    // the last first: each is moved before another is written over it
    for node in (index + 1..index + nodes).rev() {
        let parent = next(table[node * NODE_WORDS + PARENT]);
        lift(table, node, parent);
    }
    lift(table, index, capped(index));
}
