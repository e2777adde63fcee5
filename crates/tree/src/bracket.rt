// Inside a bracket: where the reader stands, and what a sign or a count does there.
// A function with a `requires` is this crate's own: the numbers that it asks for hold in every text that is read.
ghost use Rattle.std.specs.Prelude.{◌≡◌, ◌≤◌};
ghost use Rattle.reading.specs.Sizes.{widest};
ghost use Rattle.reading.specs.declared.Refusal.{Refusal};
ghost use Rattle.begin.specs.Begins.{refused_at};
ghost use Rattle.tree.specs.Readers.{entering as entering_of, Ends, Taken};
ghost use Rattle.tree.specs.Turning.{Narrow, Behind, Led, Leading, Tupled, Counted, Deepened, Shuts, Closed};

use crate::leaf::told;
use crate::start::Start;
use begin::sign::is_retired;
use lexicon::Token;
use look::answer::Read;
use moves::{CurlyFrame, Frame, Front, Mode, Move, NodeKind, Role, RoundFrame, Shape, Style};
use reading::{Limits, Refusal, Refused};
use table::{Entry, assign, put};

// What is expected, from which place; the open brackets; the nodes of the members so far; the last member's first node.
#[derive(Clone, Copy)]
pub struct State {
    pub mode: Mode,
    pub at: usize,
    pub deep: usize,
    pub nodes: usize,
    pub last: usize,
}

// The bracket goes on, or has ended. No Result: that it has ended is no error.
#[derive(Clone, Copy)]
pub enum Turn {
    On(State),
    Ended(Read),
}

// Where a bracket is entered: it has no member yet.
pub(crate) fn entering(mode: Mode, at: usize, depth: usize, index: usize) -> State
    requires { depth ≤ widest }
    ensures { result ≡ entering_of mode at depth index }
{
    State {
        mode,
        at,
        deep: depth + 1,
        nodes: 0,
        last: index,
    }
}

// A sign leads on, and tells the role of the value before it.
fn lead_on(s: State, mode: Mode, role: Role, t: Token, table: &mut [u32]) -> Turn
    ensures { Led s t mode role table.old table.new result }
{
    assign(table, s.last, role);
    Turn::On(State {
        mode,
        at: t.end,
        ..s
    })
}

// A sign that may be read leads on; one that is retired is refused where it would have led on. (Six arguments: see `take`.)
fn lead(
    limits: Limits,
    s: State,
    mode: Mode,
    role: Role,
    t: Token,
    table: &mut [u32],
) -> Result<Turn, Refused>
    ensures { Leading s t limits mode role table.old table.new result }
{
    if is_retired(limits, t) {
        return Err(Refused {
            refusal: Refusal::RetiredArrow,
            place: t.first,
        });
    }
    Ok(lead_on(s, mode, role, t, table))
}

// The comma behind `(name:value`.
fn tuple(s: State, t: Token, table: &mut [u32], index: usize) -> Turn
    requires { Narrow s t index }
    ensures { Tupled s t table.old table.new index result }
{
    assign(table, index + 1, Role::Name);
    lead_on(
        s,
        Mode::Want(Frame::Round(RoundFrame::Row)),
        Role::Value,
        t,
        table,
    )
}

fn count(s: State, style: Style, t: Token, table: &mut [u32], index: usize) -> Turn
    requires { Narrow s t index }
    ensures { Counted s t style table.old table.new index result }
{
    let tells = told(t.kind);
    let place = index + 1 + s.nodes;
    put(
        table,
        place,
        Entry {
            kind: tells.kind,
            first: t.first as u32,
            end: t.end as u32,
            parent: index as u32,
            role: Role::Count,
            detail: tells.detail,
            skip: (place + 1) as u32,
        },
    );
    Turn::On(State {
        mode: Mode::Counted(style),
        at: t.end,
        nodes: s.nodes + 1,
        ..s
    })
}

// `{` behind a head, if there may be one bracket more.
fn deeper(limits: Limits, s: State, style: Style, t: Token) -> Result<Turn, Refused>
    ensures { Deepened s t limits style result }
{
    if s.deep >= limits.depth {
        return Err(Refused {
            refusal: Refusal::TooDeep,
            place: t.first,
        });
    }
    Ok(Turn::On(State {
        mode: Mode::Want(Frame::Curly(CurlyFrame::Members {
            style,
            front: Front::Start,
        })),
        at: t.end,
        deep: s.deep + 1,
        ..s
    }))
}

// `}` of a counted collection.
fn shut(s: State, style: Style, role: Role, t: Token, table: &mut [u32]) -> Turn
    ensures { Shuts s t style role table.old table.new result }
{
    assign(table, s.last, role);
    Turn::On(State {
        mode: Mode::Headed(style),
        at: t.end,
        deep: s.deep.saturating_sub(1),
        ..s
    })
}

// The bracket's end: its node, in front of its members'. (Seven arguments: see `take`.)
fn close(
    start: &Start,
    s: State,
    t: Token,
    kind: NodeKind,
    detail: u32,
    role: Role,
    table: &mut [u32],
) -> Turn
    requires { Narrow s t start.now.index × (start.now.token.first ≤ t.first) }
    ensures { Closed s t start.now.token.first kind detail role table.old table.new start.now.index start.now.parent result }
{
    let nodes = s.nodes + 1;
    assign(table, s.last, role);
    put(
        table,
        start.index,
        Entry {
            kind: kind as u32,
            first: start.token.first as u32,
            end: t.end as u32,
            parent: start.parent as u32,
            role: Role::Root,
            detail,
            skip: (start.index + nodes) as u32,
        },
    );
    Turn::Ended(Read {
        end: t.end,
        nodes,
        shape: Shape::Other,
    })
}

fn wrong(t: Token) -> Result<Turn, Refused>
    ensures { result ≡ Err (refused_at Refusal.WrongPlace t) }
{
    Err(Refused {
        refusal: Refusal::WrongPlace,
        place: t.first,
    })
}

// Carries out the move of a token that begins no value. A group does not come here: its end is looked for behind its value.
// State, token and move stay arguments: each comes from another call, and a struct of them would be taken apart at once.
pub(crate) fn take(
    limits: Limits,
    start: &Start,
    s: State,
    t: Token,
    taken: Move,
    table: &mut [u32],
) -> Result<Turn, Refused>
    requires { Narrow s t start.now.index × Behind start.now.token s }
    ensures numbers { Ends start.now.token t result }
    ensures turns { Taken limits start.now.token s t taken table.old table.new start.now.index start.now.parent result }
{
    match taken {
        Move::To { mode, role } => lead(limits, s, mode, role, t, table),
        Move::Tuple => Ok(tuple(s, t, table, start.index)),
        Move::Count(style) => Ok(count(s, style, t, table, start.index)),
        Move::Deeper(style) => deeper(limits, s, style, t),
        Move::Shut { style, role } => Ok(shut(s, style, role, t, table)),
        Move::Close { kind, detail, role } => { Ok(close(start, s, t, kind, detail, role, table)) }
        Move::Value(_) | Move::Group | Move::Wrong => wrong(t),
    }
}
