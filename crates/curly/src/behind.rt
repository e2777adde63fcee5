// Behind a value between `{` and `}`: the bracket's end, a comma, or an arrow.
ghost use Rattle.moves.specs.Moves.{Moves};

use crate::joint::arrow;
use crate::member::{alone_role, next, shut};
use arrows::right_role;
use lexicon::{Kind, Sign};
use moves::{Arrow, CurlyFrame, Forms, Frame, Mode, Move, NodeKind, Shape, Style};

// `}` behind a member.
fn close(frame: CurlyFrame) -> Move
    ensures { (forms : Forms) (shape : Shape) → Moves forms (Mode.Have (Frame.Curly frame) shape) (Kind.Symbol Sign.CurlyClose) result }
{
    match frame {
        CurlyFrame::Members { style, .. } => shut(style, alone_role(style)),
        CurlyFrame::Joined(arrow) => Move::ends(NodeKind::Lot, right_role(arrow)),
    }
}

// A comma behind a member.
fn comma(frame: CurlyFrame) -> Move
    ensures { (forms : Forms) (shape : Shape) → Moves forms (Mode.Have (Frame.Curly frame) shape) (Kind.Symbol Sign.Comma) result }
{
    match frame {
        CurlyFrame::Members { style, .. } => next(style, alone_role(style)),
        CurlyFrame::Joined(arrow) => next(Style::Lot, right_role(arrow)),
    }
}

// A sign behind a value. In each bracket's crate, since its `behind` promises the move of every sign.
pub fn behind(forms: Forms, frame: CurlyFrame, sign: Sign) -> Move
    ensures { (shape : Shape) → Moves forms (Mode.Have (Frame.Curly frame) shape) (Kind.Symbol sign) result }
{
    match sign {
        Sign::CurlyClose => close(frame),
        Sign::Comma => comma(frame),
        Sign::ArrowRight => arrow(forms, frame, Arrow::Right),
        Sign::ArrowLeft => arrow(forms, frame, Arrow::Left),
        _ => Move::Wrong,
    }
}
