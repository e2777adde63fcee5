// What comes next in a text: dividing space is passed over, then a token, the end, or a byte at which none starts.
// A function with a `requires` is this crate's own: its caller has looked at the byte, and a second look would be dead code.
// Text and place are passed side by side: the place changes and the text doesn't, so that `space(text, end)` would build a struct of both
// anew at each call.
ghost use Rattle.std.specs.Prelude.{◌<◌, length};
ghost use Rattle.lexicon.specs.Token.{Comes};
ghost use Rattle.token.specs.Answers.{StartsAt, NotOpening};

use crate::literal::{number_token, quoted_token, word_token};
use crate::symbol::{Symbol, colons, symbol_at};
use crate::zero::zero;
use lexicon::{Kind, Next, Set, Token};
use space::space;
use text::class::{class, holds};

// A symbol, or a number with a minus sign.
fn punctuation(text: &[u8], at: usize) -> Option<Token>
    requires { (at < length text.now) × NotOpening text.now at }
    ensures { StartsAt text.now at result }
{
    if let Some(Symbol { sign, end }) = symbol_at(text, at) {
        return Some(Token {
            kind: Kind::Symbol(sign),
            first: at,
            end,
            bad: false,
        });
    }
    if text[at] == b'-' {
        return number_token(text, at);
    }
    None
}

// The token that starts at a byte, told by that byte.
fn starting(text: &[u8], at: usize) -> Option<Token>
    requires { at < length text.now }
    ensures { StartsAt text.now at result }
{
    let b = text[at];
    if b == b'"' {
        return quoted_token(text, at);
    }
    let class = class(b);
    if holds(class, Set::WordStart) {
        return word_token(text, at);
    }
    if b == b'0' {
        return zero(text, at);
    }
    if holds(class, Set::Decimal) {
        return number_token(text, at);
    }
    if b == b'+' {
        return number_token(text, at);
    }
    if b == b':' {
        return colons(text, at);
    }
    punctuation(text, at)
}

// The token at or after a place.
pub fn next(text: &[u8], at: usize) -> Next
    ensures { Comes text.now at result }
{
    let first = space(text, at);
    if first >= text.len() {
        return Next::End(text.len());
    }
    match starting(text, first) {
        Some(t) => Next::Token(t),
        None => Next::NoToken(first),
    }
}
