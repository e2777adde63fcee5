// Behind a value between `(` and `)`: the bracket's end, a comma, or an arrow.
ghost use Rattle.moves.specs.Moves.{Moves};

use crate::joint::arrow;
use arrows::right_role;
use lexicon::{Kind, Sign};
use moves::{Arrow, Forms, Frame, Mode, Move, NodeKind, Role, RoundFrame, Shape};

// `)` ends a group, a Pair or a Tuple.
fn close(frame: RoundFrame) -> Move
    ensures { (forms : Forms) (shape : Shape) → Moves forms (Mode.Have (Frame.Round frame) shape) (Kind.Symbol Sign.RoundClose) result }
{
    match frame {
        RoundFrame::Opened => Move::Group,
        RoundFrame::Colon { .. } => Move::ends(NodeKind::Pair, Role::ThatAfter),
        RoundFrame::Arrow(arrow) => Move::ends(NodeKind::Pair, right_role(arrow)),
        RoundFrame::Led | RoundFrame::Row | RoundFrame::Named => Move::ends(
            NodeKind::Tuple,
            Role::Value,
        ),
    }
}

// A comma behind a value, or behind a Tuple's attribute. A name, its `:`, a value and a comma begin a Tuple.
fn comma(frame: RoundFrame) -> Move
    ensures { (forms : Forms) (shape : Shape) → Moves forms (Mode.Have (Frame.Round frame) shape) (Kind.Symbol Sign.Comma) result }
{
    match frame {
        RoundFrame::Colon { name: true } => Move::Tuple,
        RoundFrame::Colon { name: false } | RoundFrame::Arrow(_) => Move::Wrong,
        _ => Move::want(RoundFrame::Row, Role::Value),
    }
}

// A sign behind a value. In each bracket's crate, since its `behind` promises the move of every sign.
pub fn behind(forms: Forms, frame: RoundFrame, sign: Sign) -> Move
    ensures { (shape : Shape) → Moves forms (Mode.Have (Frame.Round frame) shape) (Kind.Symbol sign) result }
{
    match sign {
        Sign::RoundClose => close(frame),
        Sign::Comma => comma(frame),
        Sign::ArrowRight => arrow(forms, frame, Arrow::Right),
        Sign::ArrowLeft => arrow(forms, frame, Arrow::Left),
        _ => Move::Wrong,
    }
}
