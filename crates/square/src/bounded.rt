// Behind an Interval's bounds.
ghost use Rattle.moves.specs.Moves.{Moves};

use lexicon::{Kind, Sign};
use moves::{Forms, Mode, Move, NodeKind, Role};

// `]`.
pub fn bounded(detail: u32, kind: Kind) -> Move
    ensures { (forms : Forms) → Moves forms (Mode.Bounded detail) kind result }
{
    match kind {
        Kind::Symbol(Sign::SquareClose) => Move::Close {
            kind: NodeKind::Interval,
            detail,
            role: Role::Root,
        },
        _ => Move::Wrong,
    }
}
