// Heads: `(`, a bare head word and the token `:`.
ghost use Rattle.look.specs.Looks.{Heads};

use crate::answer::get;
use lexicon::{Form, Head, Kind, Token};
use reading::Refused;

// The head word behind `(` and where its colon ends; or what comes there, if it is no head.
// No Result: what comes there is no error, and mostly a token.
#[derive(Clone, Copy)]
pub enum Headed {
    At { head: Head, end: usize },
    Other(Result<Token, Refused>),
}

#[inline(always)]
pub fn head_at(text: &[u8], at: usize) -> Headed
    ensures { Heads text.now at result }
{
    let first = get(text, at);
    let Ok(
        Token {
            kind: Kind::Text(Form::HeadWord(head)),
            end: behind,
            ..
        },
    ) = first
    else {
        return Headed::Other(first);
    };
    let Ok(
        Token {
            kind: Kind::Colon,
            end,
            ..
        },
    ) = get(text, behind)
    else {
        return Headed::Other(first);
    };
    Headed::At { head, end }
}
