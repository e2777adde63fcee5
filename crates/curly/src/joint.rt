// What joins a value to the next between `{` and `}`: a colon or an arrow.
ghost use Rattle.moves.specs.Means.{arrow_sign};
ghost use Rattle.moves.specs.Moves.{Moves};

use arrows::{has_arrow, left_role};
use lexicon::Kind;
use moves::{Arrow, CurlyFrame, Forms, Frame, Mode, Move, Role, Shape, Style};

// A colon, one in each member: a pair of a Lot, or a member's count.
pub fn colon(frame: CurlyFrame) -> Move
    ensures { (forms : Forms) (shape : Shape) → Moves forms (Mode.Have (Frame.Curly frame) shape) Kind.Colon result }
{
    match frame {
        CurlyFrame::Members {
            style: Style::Lot,
            ..
        } => Move::want(CurlyFrame::Joined(Arrow::Right), Role::This),
        CurlyFrame::Members { style, .. } => Move::To {
            mode: Mode::Count(style),
            role: Role::Value,
        },
        CurlyFrame::Joined(_) => Move::Wrong,
    }
}

// An arrow: one in each member of a Lot.
pub(crate) fn arrow(forms: Forms, frame: CurlyFrame, arrow: Arrow) -> Move
    ensures { (shape : Shape) → Moves forms (Mode.Have (Frame.Curly frame) shape) (Kind.Symbol (arrow_sign arrow)) result }
{
    match frame {
        CurlyFrame::Members {
            style: Style::Lot,
            ..
        } if has_arrow(forms, arrow) => { Move::want(CurlyFrame::Joined(arrow), left_role(arrow)) }
        _ => Move::Wrong,
    }
}
