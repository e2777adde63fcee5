// A value holds members and a member holds values: the readers call each other, and bytes are left fewer at each call.
// Each reader takes an answer apart by let else and hands the refusal up: a form that the project prescribes (docs/DECISIONS.md).
// A function with a `requires` is this crate's own: the numbers that it asks for hold in every text that is read.
ghost use Rattle.std.specs.Prelude.{◌≡◌, true, ◌≤◌, length};
ghost use Rattle.lexicon.specs.declared.Next.TheVariants as Next;
ghost use Rattle.lexicon.specs.Token.{Comes};
ghost use Rattle.grammar.specs.Tokens.{class_kind};
ghost use Rattle.reading.specs.Sizes.{widest};
ghost use Rattle.look.specs.Looks.{Gets};
ghost use Rattle.begin.specs.Signs.{no_mark};
ghost use Rattle.tree.specs.Readers.{Within, Inside, Reads, Rounded, Bracketed, Member, Bore};
ghost use Rattle.tree.specs.Turning.{Narrow};

use crate::bracket::{State, Turn, entering, take};
use crate::leaf::{leaf, names};
use crate::start::Start;
use begin::sign::{begins_value, is_close};
use begin::{Begin, Reader};
use lexicon::Token;
use look::answer::{Read, get};
use moves::{Frame, Mode, Move, RoundFrame, Shape};
use reading::Refused;
use step::step::step;
use table::raise;

// The value that the start begins, at a place for a value; its nodes stand from the start's index on.
#[cycle(bracket_child_first_value_member_round_value)]
pub(crate) fn value(
    reader: &Reader<'_>,
    start: &Start,
    depth: usize,
    table: &mut [u32],
) -> Result<Read, Refused>
    requires { Within reader.now.text.now start.now × (depth ≤ start.now.token.first) }
    ensures { Reads reader.now.text.now reader.now.limits reader.now.forms depth start.now.token table.old table.new start.now.index start.now.parent result }
{
    let begun = reader.begins(start.token, depth);
    let Ok(begin) = begun else {
        return Err(begun.unwrap_err());
    };
    match begin {
        Begin::Literal => leaf(reader.text, start, table),
        Begin::Names => names(reader.text, start, table),
        Begin::Round(first) => round(reader, start, first, depth, table),
        Begin::Bracket { mode, at } => {
            let entered = entering(mode, at, depth, start.index);
            bracket(reader, start, entered, table)
        }
    }
}

// Behind `(` without a head.
#[cycle(bracket_child_first_value_member_round_value)]
fn round(
    reader: &Reader<'_>,
    start: &Start,
    first: Result<Token, Refused>,
    depth: usize,
    table: &mut [u32],
) -> Result<Read, Refused>
    requires { Within reader.now.text.now start.now × (depth ≤ start.now.token.first) × Gets reader.now.text.now start.now.token.end first }
    ensures { Rounded reader.now.text.now reader.now.limits reader.now.forms depth start.now.token table.old table.new start.now.index start.now.parent result }
{
    let Ok(t) = first else {
        return Err(first.unwrap_err());
    };
    if begins_value(t.kind) {
        return first_value(reader, start, t, depth, table);
    }
    let entered = entering(
        Mode::Want(Frame::Round(RoundFrame::Opened)),
        start.token.end,
        depth,
        start.index,
    );
    bracket(reader, start, entered, table)
}

// The first value behind `(`. A group makes no node, so the value is written as if it stood in one; where it does not, its nodes are moved
// up by one for the bracket's own.
#[cycle(bracket_child_first_value_member_round_value)]
fn first_value(
    reader: &Reader<'_>,
    start: &Start,
    t: Token,
    depth: usize,
    table: &mut [u32],
) -> Result<Read, Refused>
    requires { Within reader.now.text.now start.now × (depth ≤ start.now.token.first) × Comes reader.now.text.now start.now.token.end (Next.Token t) × (no_mark (class_kind t.kind) ≡ true) }
    ensures { Rounded reader.now.text.now reader.now.limits reader.now.forms depth start.now.token table.old table.new start.now.index start.now.parent result }
{
    let inner = Start {
        token: t,
        index: start.index,
        parent: start.parent,
    };
    let read = value(reader, &inner, depth + 1, table);
    let Ok(first) = read else {
        return read;
    };
    let then = get(reader.text, first.end);
    let Ok(u) = then else {
        return Err(then.unwrap_err());
    };
    if is_close(u.kind) {
        return Ok(Read {
            end: u.end,
            nodes: first.nodes,
            shape: Shape::Other,
        });
    }
    raise(table, start.index, first.nodes);
    let behind = State {
        mode: Mode::Have {
            frame: Frame::Round(RoundFrame::Opened),
            shape: first.shape,
        },
        at: first.end,
        deep: depth + 1,
        nodes: first.nodes,
        last: start.index + 1,
    };
    bracket(reader, start, behind, table)
}

// What stands in a bracket from where it is entered, up to and with its end.
#[cycle(bracket_child_first_value_member_round_value)]
fn bracket(
    reader: &Reader<'_>,
    start: &Start,
    entered: State,
    table: &mut [u32],
) -> Result<Read, Refused>
    requires { Inside reader.now.text.now start.now entered }
    ensures { Bracketed reader.now.text.now reader.now.limits reader.now.forms start.now.token entered table.old table.new start.now.index start.now.parent result }
{
    let mut state = entered;
    loop {
        let turn = member(reader, start, state, table);
        let Ok(turned) = turn else {
            return Err(turn.unwrap_err());
        };
        match turned {
            Turn::On(next) => state = next,
            Turn::Ended(read) => return Ok(read),
        }
    }
}

// One value or one sign of a bracket.
#[cycle(bracket_child_first_value_member_round_value)]
fn member(reader: &Reader<'_>, start: &Start, s: State, table: &mut [u32]) -> Result<Turn, Refused>
    requires { Inside reader.now.text.now start.now s }
    ensures { Member reader.now.text.now reader.now.limits reader.now.forms start.now.token s table.old table.new start.now.index start.now.parent result }
{
    let got = get(reader.text, s.at);
    let Ok(t) = got else {
        return Err(got.unwrap_err());
    };
    let taken = step(reader.forms, s.mode, t.kind);
    let Move::Value(frame) = taken else {
        return take(reader.limits, start, s, t, taken, table);
    };
    child(reader, s, frame, t, table, start.index)
}

// A value in a bracket: its role is told by what stands behind it. (Six arguments: see `take` in bracket.rt.)
#[cycle(bracket_child_first_value_member_round_value)]
fn child(
    reader: &Reader<'_>,
    s: State,
    frame: Frame,
    t: Token,
    table: &mut [u32],
    index: usize,
) -> Result<Turn, Refused>
    requires { Narrow s t index × (s.deep ≤ s.at) × (t.end ≤ length reader.now.text.now) × (length reader.now.text.now ≤ widest) }
    ensures { Bore reader.now.text.now reader.now.limits reader.now.forms s t frame table.old table.new index result }
{
    let last = index + 1 + s.nodes;
    let start = Start {
        token: t,
        index: last,
        parent: index,
    };
    let read = value(reader, &start, s.deep, table);
    let Ok(member) = read else {
        return Err(read.unwrap_err());
    };
    Ok(Turn::On(State {
        mode: Mode::Have {
            frame,
            shape: member.shape,
        },
        at: member.end,
        deep: s.deep,
        nodes: s.nodes + member.nodes,
        last,
    }))
}
