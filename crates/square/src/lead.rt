// Where a bound is wanted: a sign that begins no value is a star or `]`.
ghost use Rattle.moves.specs.Moves.{Moves};

use crate::bounds::Bounds;
use lexicon::{Bound, Kind, Sign};
use moves::{Forms, Frame, Mode, Move, NodeKind, Role, SquareFrame};

// `[*`, `[*<` or `[*<=`: directly behind `[`.
fn star(high: Bound) -> Move
    ensures { (forms : Forms) → Moves forms (Mode.Want (Frame.Square SquareFrame.Opened)) (Kind.Symbol (Sign.Star Bound.Open high)) result }
{
    match high {
        Bound::Open => Move::To {
            mode: Mode::Bounded(Bounds::All as u32),
            role: Role::Root,
        },
        Bound::Less => Move::want(SquareFrame::UpTo(Bounds::ToOpen as u32), Role::Root),
        Bound::LessEqual => Move::want(SquareFrame::UpTo(Bounds::ToClosed as u32), Role::Root),
    }
}

// A sign where a value is wanted. Behind `[` alone a bound may lack; `<` or `<=` before the star would want a low one.
pub fn lead(frame: SquareFrame, sign: Sign) -> Move
    ensures { (forms : Forms) → Moves forms (Mode.Want (Frame.Square frame)) (Kind.Symbol sign) result }
{
    match (sign, frame) {
        // In each bracket's crate, since its `lead` promises the move of every sign.
        (Sign::RoundOpen | Sign::CurlyOpen | Sign::SquareOpen, _) => Move::Value(frame.into()),
        (Sign::SquareClose, SquareFrame::Opened) => Move::Close {
            kind: NodeKind::Interval,
            detail: Bounds::Empty as u32,
            role: Role::Root,
        },
        (
            Sign::Star {
                low: Bound::Open,
                high,
            },
            SquareFrame::Opened,
        ) => star(high),
        _ => Move::Wrong,
    }
}
