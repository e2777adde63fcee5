// Where a value is wanted.
ghost use Rattle.moves.specs.Moves.{Moves};

use lexicon::Kind;
use moves::{Forms, Frame, Mode, Move};

// A sign, by the bracket that it stands in. Any other token begins a value, but a colon.
pub(crate) fn lead(frame: Frame, kind: Kind) -> Move
    ensures { (forms : Forms) → Moves forms (Mode.Want frame) kind result }
{
    match (kind, frame) {
        (Kind::Symbol(sign), Frame::Round(frame)) => round::lead::lead(frame, sign),
        (Kind::Symbol(sign), Frame::Curly(frame)) => curly::lead::lead(frame, sign),
        (Kind::Symbol(sign), Frame::Square(frame)) => square::lead::lead(frame, sign),
        (Kind::Colon, _) => Move::Wrong,
        _ => Move::Value(frame),
    }
}
