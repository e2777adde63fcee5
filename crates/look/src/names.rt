// The names of a Nesting: `::`, and the Text behind it.
ghost use Rattle.look.specs.Names.{ColonsNext, NameNext};

use crate::answer::get;
use lexicon::{Kind, Next, Token};
use reading::{Refusal, Refused};
use token::bad::bad_place;
use token::next::next;

// Where `::` ends, if it comes next.
pub fn two_colons(text: &[u8], at: usize) -> Option<usize>
    ensures { ColonsNext text.now at result }
{
    let Next::Token(
        Token {
            kind: Kind::TwoColons,
            end,
            ..
        },
    ) = next(text, at)
    else {
        return None;
    };
    Some(end)
}

// The Text behind `::`: where it ends.
pub fn name(text: &[u8], at: usize) -> Result<usize, Refused>
    ensures { NameNext text.now at result }
{
    let got = get(text, at);
    let Ok(t) = got else {
        return Err(got.unwrap_err());
    };
    let Kind::Text(_) = t.kind else {
        return Err(Refused {
            refusal: Refusal::WrongPlace,
            place: t.first,
        });
    };
    if t.bad {
        return Err(Refused {
            refusal: Refusal::BadValue,
            place: bad_place(text, t),
        });
    }
    Ok(t.end)
}
