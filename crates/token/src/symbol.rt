// Symbols, and runs of colons.
// A function with a `requires` is this crate's own: its caller has looked at the byte, and a second look would be dead code.
ghost use Rattle.std.specs.Prelude.{◌<◌, length};
ghost use Rattle.rules.specs.Class.{just};
ghost use Rattle.rules.specs.Rule.{At, Takes, lit};
ghost use Rattle.lexicon.specs.Symbols.{side};
ghost use Rattle.lexicon.specs.Token.{a_symbol, Here};
ghost use Rattle.token.specs.Answers.{Symboled, StartsAt};

use lexicon::{Bound, Kind, Sign, Token};
use text::byte::stands;

// A symbol and the place behind it.
#[derive(Drop)]
pub struct Symbol {
    pub sign: Sign,
    pub end: usize,
}

// The longest symbol with the star at `at`, behind a side that begins at `from`.
fn star(text: &[u8], from: usize, at: usize, low: Bound) -> Symbol
    requires { Takes text.now (lit (side low)) from at × At text.now (just 0x2A) at }
    ensures { Here text.now (a_symbol result.sign) from result.end }
{
    let (high, end) = if !stands(text, at + 1, b'<') {
        (Bound::Open, at + 1)
    } else if stands(text, at + 2, b'=') {
        (Bound::LessEqual, at + 3)
    } else {
        (Bound::Less, at + 2)
    };
    Symbol {
        sign: Sign::Star { low, high },
        end,
    }
}

// The longest symbol that begins with the `<` at `at`.
fn less(text: &[u8], at: usize) -> Option<Symbol>
    requires { At text.now (just 0x3C) at }
    ensures { Symboled text.now at result }
{
    match text.get(at + 1)? {
        b'-' => Some(Symbol {
            sign: Sign::ArrowLeft,
            end: at + 2,
        }),
        b'*' => Some(star(text, at, at + 1, Bound::Less)),
        b'=' if stands(text, at + 2, b'*') => Some(star(text, at, at + 2, Bound::LessEqual)),
        _ => None,
    }
}

// The longest symbol at a place.
pub(crate) fn symbol_at(text: &[u8], at: usize) -> Option<Symbol>
    requires { at < length text.now }
    ensures { Symboled text.now at result }
{
    let sign = match text[at] {
        b'(' => Sign::RoundOpen,
        b')' => Sign::RoundClose,
        b'{' => Sign::CurlyOpen,
        b'}' => Sign::CurlyClose,
        b'[' => Sign::SquareOpen,
        b']' => Sign::SquareClose,
        b',' => Sign::Comma,
        b'*' => return Some(star(text, at, at, Bound::Open)),
        b'<' => return less(text, at),
        b'-' => {
            return stands(text, at + 1, b'>').then_some(Symbol {
                sign: Sign::ArrowRight,
                end: at + 2,
            });
        }
        b'.' => {
            return stands(text, at + 1, b'.').then_some(Symbol {
                sign: Sign::Dots,
                end: at + 2,
            });
        }
        _ => return None,
    };
    Some(Symbol { sign, end: at + 1 })
}

// The token at a run of colons: one or three begin with `:`, two are `::`, more start none.
pub(crate) fn colons(text: &[u8], at: usize) -> Option<Token>
    requires { At text.now (just 0x3A) at }
    ensures { StartsAt text.now at result }
{
    let colon = Some(Token {
        kind: Kind::Colon,
        first: at,
        end: at + 1,
        bad: false,
    });
    if !stands(text, at + 1, b':') {
        return colon;
    }
    if !stands(text, at + 2, b':') {
        return Some(Token {
            kind: Kind::TwoColons,
            first: at,
            end: at + 2,
            bad: false,
        });
    }
    if !stands(text, at + 3, b':') {
        return colon;
    }
    None
}
