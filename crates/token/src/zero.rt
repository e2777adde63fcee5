// The tokens that begin with the digit 0.
// A function with a `requires` is this crate's own: its caller has looked at the byte, and a second look would be dead code.
ghost use Rattle.rules.specs.Class.{just};
ghost use Rattle.rules.specs.Rule.{At};
ghost use Rattle.token.specs.Answers.{StartsAt, FixedAt, Marked};

use crate::literal::number_token;
use lexicon::{Form, Kind, Literal, Token};
use number::blob::{bits, blob};
use string::code_point::code_point;
use word::spelling::spells;

// Ignorance, a Boolean or the later literal: each has one spelling.
fn fixed_at(text: &[u8], at: usize) -> Option<(Kind, usize)>
    requires { At text.now (just 0x30) at }
    ensures { FixedAt text.now at result }
{
    let end = at + 11;
    if spells(text, at, end, b"0sIGNORANCE") {
        return Some((Kind::Ignorance, end));
    }
    let end = at + 7;
    if spells(text, at, end, b"0bFALSE") {
        return Some((Kind::Boolean(false), end));
    }
    let end = at + 6;
    if spells(text, at, end, b"0bTRUE") {
        return Some((Kind::Boolean(true), end));
    }
    let end = at + 2;
    if spells(text, at, end, b"0L") {
        return Some((Kind::Later, end));
    }
    None
}

// Bits, a Blob, a code point or a number.
fn marked(text: &[u8], at: usize) -> Option<Token>
    requires { At text.now (just 0x30) at × Marked text.now at }
    ensures { StartsAt text.now at result }
{
    if let Some(end) = bits(text, at) {
        return Some(Token {
            kind: Kind::Bits,
            first: at,
            end,
            bad: false,
        });
    }
    if let Some(Literal { end, bad }) = blob(text, at) {
        return Some(Token {
            kind: Kind::Blob,
            first: at,
            end,
            bad,
        });
    }
    if let Some(Literal { end, bad }) = code_point(text, at) {
        return Some(Token {
            kind: Kind::Text(Form::CodePoint),
            first: at,
            end,
            bad,
        });
    }
    number_token(text, at)
}

// The token at a digit 0.
pub(crate) fn zero(text: &[u8], at: usize) -> Option<Token>
    requires { At text.now (just 0x30) at }
    ensures { StartsAt text.now at result }
{
    match fixed_at(text, at) {
        Some((kind, end)) => Some(Token {
            kind,
            first: at,
            end,
            bad: false,
        }),
        None => marked(text, at),
    }
}
