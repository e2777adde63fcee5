// The tokens of quoted texts, words and numbers: the kind of each, where it ends, and whether its value is bad.
// A function with a `requires` is this crate's own: its caller has looked at the byte, and a second look would be dead code.
ghost use Rattle.std.specs.Prelude.{◌<◌, length};
ghost use Rattle.rules.specs.Class.{just};
ghost use Rattle.rules.specs.Rule.{At};
ghost use Rattle.lexicon.specs.Bytes.{word_start};
ghost use Rattle.token.specs.Answers.{StartsAt, NumberOnly};

use lexicon::{Form, Kind, Literal, Token};
use number::Numeral;
use number::fraction::numeral;
use string::quoted::quoted;
use word::word::{form, word};

// At a quotation mark.
pub(crate) fn quoted_token(text: &[u8], at: usize) -> Option<Token>
    requires { At text.now (just 0x22) at }
    ensures { StartsAt text.now at result }
{
    let Literal { end, bad } = quoted(text, at)?;
    Some(Token {
        kind: Kind::Text(Form::Quoted),
        first: at,
        end,
        bad,
    })
}

// At a byte that begins a word.
pub(crate) fn word_token(text: &[u8], at: usize) -> Option<Token>
    requires { At text.now word_start at }
    ensures { StartsAt text.now at result }
{
    let end = word(text, at)?;
    let written = form(text, at, end);
    Some(Token {
        kind: Kind::Text(written),
        first: at,
        end,
        bad: false,
    })
}

// Where none but a number can start.
pub(crate) fn number_token(text: &[u8], at: usize) -> Option<Token>
    requires { (at < length text.now) × NumberOnly text.now at }
    ensures { StartsAt text.now at result }
{
    match numeral(text, at)? {
        Numeral::Integer(end) => {
            let signed = matches!(text[at], b'+' | b'-');
            Some(Token {
                kind: Kind::Integer { signed },
                first: at,
                end,
                bad: false,
            })
        }
        Numeral::Fraction(Literal { end, bad }) => Some(Token {
            kind: Kind::Fraction,
            first: at,
            end,
            bad,
        }),
    }
}
