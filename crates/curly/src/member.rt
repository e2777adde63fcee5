// The members: where the next is wanted, and what stands behind the last.
ghost use Rattle.std.specs.Prelude.{◌≡◌};
ghost use Rattle.grammar.specs.Nodes;
ghost use Rattle.moves.specs.Means.{role_of, items_of};
ghost use Rattle.moves.specs.Moves;
ghost use Rattle.moves.specs.Moves.{Moves};

use lexicon::{Kind, Sign};
use moves::{CurlyFrame, Forms, Frame, Front, Mode, Move, NodeKind, Role, Style};

// The next member is wanted, behind a comma.
pub(crate) fn next(style: Style, role: Role) -> Move
    ensures { result ≡ Move.To (Mode.Want (Frame.Curly (CurlyFrame.Members style Front.Row))) role }
{
    Move::want(
        CurlyFrame::Members {
            style,
            front: Front::Row,
        },
        role,
    )
}

// `}`: a Lot's bracket ends with it, that of a counted collection with the `)` behind it.
pub(crate) fn shut(style: Style, role: Role) -> Move
    ensures { result ≡ Moves.shut style role }
{
    match style {
        Style::Lot => Move::ends(NodeKind::Lot, role),
        Style::Array | Style::Set | Style::Bag => Move::Shut { style, role },
    }
}

// The role of a member by itself.
pub(crate) fn alone_role(style: Style) -> Role
    ensures { role_of result ≡ Nodes.alone_role_of (items_of style) }
{
    match style {
        Style::Lot => Role::This,
        Style::Array | Style::Set | Style::Bag => Role::Value,
    }
}

// `}` or a comma behind a count.
pub fn counted(style: Style, kind: Kind) -> Move
    ensures { (forms : Forms) → Moves forms (Mode.Counted style) kind result }
{
    match kind {
        Kind::Symbol(Sign::CurlyClose) => shut(style, Role::Root),
        Kind::Symbol(Sign::Comma) => next(style, Role::Root),
        _ => Move::Wrong,
    }
}

// `}` behind two commas.
pub fn two_commas(style: Style, kind: Kind) -> Move
    ensures { (forms : Forms) → Moves forms (Mode.TwoCommas style) kind result }
{
    match kind {
        Kind::Symbol(Sign::CurlyClose) => shut(style, Role::Root),
        _ => Move::Wrong,
    }
}
