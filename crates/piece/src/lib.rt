// What all value calls ask of a piece before its literal: that it is no longer than a text may be, and UTF-8.
#![tactic(auto)]

ghost use Rattle.reading.specs.Sizes.{base as rules};
ghost use Rattle.piece.specs.Sounds.{Sounds};

use lexicon::NotUtf8;
use reading::{Refusal, Refused, TEXT};
use utf8::utf8;

// The refusal of a piece that is not exactly one literal of the asked kind.
pub const NOT_THE_LITERAL: Refused = Refused {
    refusal: Refusal::NotTheLiteral,
    place: 0,
};

// Whether a literal may be looked for in the piece; else refusal 2 or 3.
#[tactic(auto, using(crate::specs::Sounds::too_long, crate::proofs::Refused::not_utf8_by))]
pub fn sound(piece: &[u8]) -> Result<(), Refused>
    ensures { Sounds rules piece.now result }
{
    if piece.len() > TEXT {
        return Err(Refused {
            refusal: Refusal::TooLong,
            place: 0,
        });
    }
    // As `unformed` of crate look has it, which stands above the tokens, and so not below the value calls.
    if let Err(NotUtf8 { at }) = utf8(piece) {
        return Err(Refused {
            refusal: Refusal::NotUtf8,
            place: at,
        });
    }
    Ok(())
}
