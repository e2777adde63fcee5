// Where a member is wanted: a sign that begins none is a comma or `}`.
ghost use Rattle.moves.specs.Moves.{Moves};

use crate::member::shut;
use lexicon::{Kind, Sign};
use moves::{CurlyFrame, Forms, Frame, Front, Mode, Move, Role, Style};

// A comma before a member: the leading one, or the second of two.
fn leading(style: Style, front: Front) -> Move
    ensures { (forms : Forms) → Moves forms (Mode.Want (Frame.Curly (CurlyFrame.Members style front))) (Kind.Symbol Sign.Comma) result }
{
    match front {
        Front::Start => Move::want(
            CurlyFrame::Members {
                style,
                front: Front::Led,
            },
            Role::Root,
        ),
        Front::Led => Move::To {
            mode: Mode::TwoCommas(style),
            role: Role::Root,
        },
        Front::Row => Move::Wrong,
    }
}

// A sign where a value is wanted: where that is the second of a pair, neither a comma nor `}` stands in its place.
pub fn lead(frame: CurlyFrame, sign: Sign) -> Move
    ensures { (forms : Forms) → Moves forms (Mode.Want (Frame.Curly frame)) (Kind.Symbol sign) result }
{
    match (sign, frame) {
        // In each bracket's crate, since its `lead` promises the move of every sign.
        (Sign::RoundOpen | Sign::CurlyOpen | Sign::SquareOpen, _) => Move::Value(frame.into()),
        (Sign::CurlyClose, CurlyFrame::Members { style, .. }) => shut(style, Role::Root),
        (Sign::Comma, CurlyFrame::Members { style, front }) => leading(style, front),
        _ => Move::Wrong,
    }
}
