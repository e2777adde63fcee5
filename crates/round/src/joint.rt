// What joins a value to the next between `(` and `)`: a colon or an arrow.
ghost use Rattle.moves.specs.Means.{arrow_sign};
ghost use Rattle.moves.specs.Moves.{Moves};

use arrows::{has_arrow, left_role};
use lexicon::Kind;
use moves::{Arrow, Forms, Frame, Mode, Move, Role, RoundFrame, Shape};

// A colon: one behind the first value, one behind each attribute's name. A bare head word directly behind `(` has none behind it here: the
// head was seen before.
pub fn colon(frame: RoundFrame, shape: Shape) -> Move
    ensures { (forms : Forms) → Moves forms (Mode.Have (Frame.Round frame) shape) Kind.Colon result }
{
    match (frame, shape) {
        (RoundFrame::Opened, Shape::Name) => Move::want(
            RoundFrame::Colon { name: true },
            Role::This,
        ),
        (RoundFrame::Opened, Shape::Other) => Move::want(
            RoundFrame::Colon { name: false },
            Role::This,
        ),
        (RoundFrame::Led | RoundFrame::Row, Shape::Bare(_) | Shape::Name) => Move::want(
            RoundFrame::Named,
            Role::Name,
        ),
        _ => Move::Wrong,
    }
}

// An arrow: behind the first value alone.
pub(crate) fn arrow(forms: Forms, frame: RoundFrame, arrow: Arrow) -> Move
    ensures { (shape : Shape) → Moves forms (Mode.Have (Frame.Round frame) shape) (Kind.Symbol (arrow_sign arrow)) result }
{
    match frame {
        RoundFrame::Opened if has_arrow(forms, arrow) => Move::want(
            RoundFrame::Arrow(arrow),
            left_role(arrow),
        ),
        _ => Move::Wrong,
    }
}
