// Behind a value between `[` and `]`: the bracket's end, or the sign between the bounds.
ghost use Rattle.std.specs.Prelude.{◌≡◌};
ghost use Rattle.moves.specs.Moves.{Moves};
ghost use Rattle.square.specs.Details.{detail_of};

use crate::bounds::Bounds;
use lexicon::{Bound, Kind, Sign};
use moves::{Forms, Frame, Mode, Move, NodeKind, Role, Shape, SquareFrame};

// `]` behind an Interval's one value or its high bound.
fn close(frame: SquareFrame) -> Move
    ensures { (forms : Forms) (shape : Shape) → Moves forms (Mode.Have (Frame.Square frame) shape) (Kind.Symbol Sign.SquareClose) result }
{
    let (detail, role) = match frame {
        SquareFrame::Opened => (Bounds::Single as u32, Role::Single),
        SquareFrame::Low(detail) | SquareFrame::UpTo(detail) => (detail, Role::High),
    };
    Move::Close {
        kind: NodeKind::Interval,
        detail,
        role,
    }
}

// The sign between two bounds.
fn between(bounds: Bounds) -> Move
    ensures { result ≡ Move.To (Mode.Want (Frame.Square (SquareFrame.Low (detail_of bounds)))) Role.Low }
{
    Move::want(SquareFrame::Low(bounds as u32), Role::Low)
}

// The sign behind a low bound, where no high bound follows: `]` comes next.
fn open(bounds: Bounds) -> Move
    ensures { result ≡ Move.To (Mode.Bounded (detail_of bounds)) Role.Low }
{
    Move::To {
        mode: Mode::Bounded(bounds as u32),
        role: Role::Low,
    }
}

// A star behind a low bound: with `<` or `<=` behind it a high bound is wanted, else `]` comes next.
fn star(low: Bound, high: Bound) -> Move
    ensures { (forms : Forms) (shape : Shape) → Moves forms (Mode.Have (Frame.Square SquareFrame.Opened) shape) (Kind.Symbol (Sign.Star low high)) result }
{
    match (low, high) {
        (Bound::Open, _) => Move::Wrong,
        (Bound::Less, Bound::Open) => open(Bounds::FromOpen),
        (Bound::Less, Bound::Less) => between(Bounds::OpenOpen),
        (Bound::Less, Bound::LessEqual) => between(Bounds::OpenClosed),
        (Bound::LessEqual, Bound::Open) => open(Bounds::FromClosed),
        (Bound::LessEqual, Bound::Less) => between(Bounds::ClosedOpen),
        (Bound::LessEqual, Bound::LessEqual) => between(Bounds::ClosedClosed),
    }
}

// A sign behind a value.
pub fn behind(frame: SquareFrame, sign: Sign) -> Move
    ensures { (forms : Forms) (shape : Shape) → Moves forms (Mode.Have (Frame.Square frame) shape) (Kind.Symbol sign) result }
{
    match (sign, frame) {
        (Sign::SquareClose, _) => close(frame),
        (Sign::Dots, SquareFrame::Opened) => between(Bounds::Dots),
        (Sign::Star { low, high }, SquareFrame::Opened) => star(low, high),
        _ => Move::Wrong,
    }
}
