// The moves that a counted collection has and a Lot has not: `{` behind its head, a member's count, and `)` behind its `}`.
#![tactic(auto, using(moves::proofs::Moved::moved))]

ghost use Rattle.moves.specs.Moves.{Moves};

use lexicon::{Kind, Sign};
use moves::{Forms, Mode, Move, Role, Style};

// `{` behind a head.
pub fn head(style: Style, kind: Kind) -> Move
    ensures { (forms : Forms) → Moves forms (Mode.Head style) kind result }
{
    match kind {
        Kind::Symbol(Sign::CurlyOpen) => Move::Deeper(style),
        _ => Move::Wrong,
    }
}

// A count behind a member and `:`: an unsigned Integer in an Array and in a Bag, a Boolean in a Set.
pub fn count(style: Style, kind: Kind) -> Move
    ensures { (forms : Forms) → Moves forms (Mode.Count style) kind result }
{
    match (style, kind) {
        (Style::Array | Style::Bag, Kind::Integer { signed: false }) => Move::Count(style),
        (Style::Set, Kind::Boolean(_)) => Move::Count(style),
        _ => Move::Wrong,
    }
}

// `)` behind a collection's `}`.
pub fn headed(style: Style, kind: Kind) -> Move
    ensures { (forms : Forms) → Moves forms (Mode.Headed style) kind result }
{
    match kind {
        Kind::Symbol(Sign::RoundClose) => Move::ends(style.into(), Role::Root),
        _ => Move::Wrong,
    }
}
