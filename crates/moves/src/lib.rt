// The states of a reader inside a bracket, and the moves between them. Definitions and laws; of code only what makes one from another.
#![tactic(auto)]

mod into;

use lexicon::Head;

// The forms that a level may have or lack.
#[derive(Clone, Copy)]
pub struct Forms {
    pub arrays: bool,
    pub sets: bool,
    pub bags: bool,
    pub intervals: bool,
    pub leftward: bool,
}

// What a node stands for; `as u32` is its word in the table.
#[derive(Clone, Copy, PartialEq, Eq)]
pub enum NodeKind {
    Ignorance = 1,
    Boolean = 2,
    Integer = 3,
    Fraction = 4,
    Bits = 5,
    Blob = 6,
    Text = 7,
    Nesting = 8,
    Pair = 9,
    Tuple = 10,
    Lot = 11,
    Array = 12,
    Set = 13,
    Bag = 14,
    Interval = 15,
}

// A node's role towards its parent; `as u32` is its word in the table.
#[derive(Clone, Copy, PartialEq, Eq)]
pub enum Role {
    Root = 0,
    This = 1,
    ThatAfter = 2,
    ThatBefore = 3,
    Name = 4,
    Value = 5,
    Count = 6,
    Low = 7,
    High = 8,
    Single = 9,
}

// `->` or `<-`.
#[derive(Clone, Copy, PartialEq, Eq)]
pub enum Arrow {
    Right,
    Left,
}

// What a value is to a colon behind it: a bare head word, another name, or neither.
#[derive(Clone, Copy)]
pub enum Shape {
    Bare(Head),
    Name,
    Other,
}

// What curly brackets hold: the members of a Lot, or those of a counted collection.
#[derive(Clone, Copy)]
pub enum Style {
    Lot,
    Array,
    Set,
    Bag,
}

// What was read between curly brackets: nothing, the leading comma, members with a comma behind each.
#[derive(Clone, Copy)]
pub enum Front {
    Start,
    Led,
    Row,
}

// Behind `(`; behind a first value and `:` or an arrow; in a Tuple behind its leading comma, behind another comma, behind a name and `:`.
#[derive(Clone, Copy)]
pub enum RoundFrame {
    Opened,
    Colon { name: bool },
    Arrow(Arrow),
    Led,
    Row,
    Named,
}

// Before a member; in a Lot behind a value and what joins it to the next: a colon gives the two the roles that `->` gives.
#[derive(Clone, Copy)]
pub enum CurlyFrame {
    Members { style: Style, front: Front },
    Joined(Arrow),
}

// Behind `[`; behind the low bound and its sign; behind `*<` or `*<=`. The number is the Interval's detail; a word and no enum, since the
// functions over a frame answer for any (docs/CONTRACTS.md), and an enum would ask more of their callers.
#[derive(Clone, Copy)]
pub enum SquareFrame {
    Opened,
    Low(u32),
    UpTo(u32),
}

// Where in its bracket a value is wanted.
#[derive(Clone, Copy)]
pub enum Frame {
    Round(RoundFrame),
    Curly(CurlyFrame),
    Square(SquareFrame),
}

// What a reader inside a bracket expects: a value; what stands behind one; `{` behind a head; a count; what stands behind one; `}` behind
// two commas; `)` behind a collection's `}`; `]` behind an Interval's bounds, with its detail.
#[derive(Clone, Copy)]
pub enum Mode {
    Want(Frame),
    Have { frame: Frame, shape: Shape },
    Head(Style),
    Count(Style),
    Counted(Style),
    TwoCommas(Style),
    Headed(Style),
    Bounded(u32),
}

// What a token does. A role is that of the value before the token, if there is one.
#[derive(Clone, Copy)]
pub enum Move {
    // a value begins
    Value(Frame),
    // a sign leads on
    To {
        mode: Mode,
        role: Role,
    },
    // the comma behind `(name:value`, which makes both an attribute
    Tuple,
    // a count
    Count(Style),
    // `{` behind a head
    Deeper(Style),
    // `}` of a counted collection
    Shut {
        style: Style,
        role: Role,
    },
    // the bracket's end, with its node's kind and detail
    Close {
        kind: NodeKind,
        detail: u32,
        role: Role,
    },
    // the end of a group
    Group,
    Wrong,
}
