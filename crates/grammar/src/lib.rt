// The grammar of values over tokens: trees, what they yield, levels, places and nodes. Definitions and laws only; no code.
#![tactic(auto)]

// Words of a node, and which of them tells what: the last is the index just past its last descendant.
pub const NODE_WORDS: usize = 7;

pub const KIND: usize = 0;

pub const FIRST: usize = 1;

pub const END: usize = 2;

pub const PARENT: usize = 3;

pub const ROLE: usize = 4;

pub const DETAIL: usize = 5;

pub const SKIP: usize = 6;
