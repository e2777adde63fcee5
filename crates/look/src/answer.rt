// The answers of the readers. A refusal met below stands unchanged above.
ghost use Rattle.std.specs.Prelude.{◌≡◌};
ghost use Rattle.look.specs.Looks.{Gets, unformed_by};

use lexicon::{Next, NotUtf8, Token};
use moves::Shape;
use reading::{Refusal, Refused};
use token::next::next;

// A value: where it ends, how many nodes it has, what it is to a colon behind it.
#[derive(Clone, Copy)]
pub struct Read {
    pub end: usize,
    pub nodes: usize,
    pub shape: Shape,
}

// The token that comes next. Where one must come, the end is in the wrong place.
#[inline(always)]
pub fn get(text: &[u8], at: usize) -> Result<Token, Refused>
    ensures { Gets text.now at result }
{
    match next(text, at) {
        Next::Token(t) => Ok(t),
        Next::End(place) => Err(Refused {
            refusal: Refusal::WrongPlace,
            place,
        }),
        Next::NoToken(place) => Err(Refused {
            refusal: Refusal::NoToken,
            place,
        }),
    }
}

// The refusal of a text that is not UTF-8; none of one that is.
pub fn unformed(encoding: Result<(), NotUtf8>) -> Result<(), Refused>
    ensures { result ≡ unformed_by encoding }
{
    let Err(NotUtf8 { at }) = encoding else {
        return Ok(());
    };
    Err(Refused {
        refusal: Refusal::NotUtf8,
        place: at,
    })
}
