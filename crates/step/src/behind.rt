// Behind a value.
ghost use Rattle.moves.specs.Moves.{Moves};

use lexicon::Kind;
use moves::{Forms, Frame, Mode, Move, Shape};

// A sign or a colon, by the bracket that it stands in: nothing else stands behind a value, and no colon between `[` and `]`.
pub(crate) fn behind(forms: Forms, frame: Frame, shape: Shape, kind: Kind) -> Move
    ensures { Moves forms (Mode.Have frame shape) kind result }
{
    match (kind, frame) {
        (Kind::Symbol(sign), Frame::Round(frame)) => round::behind::behind(forms, frame, sign),
        (Kind::Symbol(sign), Frame::Curly(frame)) => curly::behind::behind(forms, frame, sign),
        (Kind::Symbol(sign), Frame::Square(frame)) => square::behind::behind(frame, sign),
        (Kind::Colon, Frame::Round(frame)) => round::joint::colon(frame, shape),
        (Kind::Colon, Frame::Curly(frame)) => curly::joint::colon(frame),
        _ => Move::Wrong,
    }
}
