// Behind the value of a text stands nothing but the end.
ghost use Rattle.std.specs.Prelude.{◌≡◌};
ghost use Rattle.look.specs.Ends.{Behind, beyond_by};

use crate::answer::Read;
use lexicon::{Next, Token};
use reading::{Refusal, Refused};
use token::next::next;

// The reading of the text's value, if the end stands behind it.
pub fn ended(text: &[u8], at: usize, read: Result<Read, Refused>) -> Result<Read, Refused>
    ensures { Behind text.now at read result }
{
    let then = next(text, at);
    let Next::End(_) = then else {
        return Err(beyond(then));
    };
    read
}

// What stands there, if not the end, is refused.
fn beyond(then: Next) -> Refused
    ensures { result ≡ beyond_by then }
{
    match then {
        Next::Token(Token { first: place, .. }) | Next::End(place) => Refused {
            refusal: Refusal::WrongPlace,
            place,
        },
        Next::NoToken(place) => Refused {
            refusal: Refusal::NoToken,
            place,
        },
    }
}
