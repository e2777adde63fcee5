// What a token does inside a bracket, told by its kind.
ghost use Rattle.moves.specs.Moves.{Moves};

use crate::behind::behind;
use crate::lead::lead;
use collection::{count, head, headed};
use curly::member::{counted, two_commas};
use lexicon::Kind;
use moves::{Forms, Mode, Move};
use square::bounded::bounded;

// The move of a token of the kind, where the reader expects what the mode tells.
pub fn step(forms: Forms, mode: Mode, kind: Kind) -> Move
    ensures { Moves forms mode kind result }
{
    match mode {
        Mode::Want(frame) => lead(frame, kind),
        Mode::Have { frame, shape } => behind(forms, frame, shape, kind),
        Mode::Head(style) => head(style, kind),
        Mode::Count(style) => count(style, kind),
        Mode::Counted(style) => counted(style, kind),
        Mode::TwoCommas(style) => two_commas(style, kind),
        Mode::Headed(style) => headed(style, kind),
        Mode::Bounded(detail) => bounded(detail, kind),
    }
}
