// Where a value is wanted between `(` and `)`: a sign that begins none is a Tuple's leading comma or `)`.
ghost use Rattle.moves.specs.Moves.{Moves};

use lexicon::{Kind, Sign};
use moves::{Forms, Frame, Mode, Move, NodeKind, Role, RoundFrame};

// A sign where a value is wanted. `)` stands directly behind `(`, or behind a comma that is not the leading one.
pub fn lead(frame: RoundFrame, sign: Sign) -> Move
    ensures { (forms : Forms) → Moves forms (Mode.Want (Frame.Round frame)) (Kind.Symbol sign) result }
{
    match (sign, frame) {
        // In each bracket's crate, since its `lead` promises the move of every sign.
        (Sign::RoundOpen | Sign::CurlyOpen | Sign::SquareOpen, _) => Move::Value(frame.into()),
        (Sign::RoundClose, RoundFrame::Opened | RoundFrame::Row) => Move::ends(
            NodeKind::Tuple,
            Role::Root,
        ),
        (Sign::Comma, RoundFrame::Opened) => Move::want(RoundFrame::Led, Role::Root),
        _ => Move::Wrong,
    }
}
