// Which tokens may begin a value, which is `)`, and which may not be read any more.
ghost use Rattle.std.specs.Prelude.{◌≡◌};
ghost use Rattle.rules.specs.Test.{Says};
ghost use Rattle.grammar.specs.Tokens.{class_kind};
ghost use Rattle.reading.specs.Faults.{Retired};
ghost use Rattle.begin.specs.Signs.{no_mark, is_close_of};

use lexicon::{Kind, Sign, Token};
use reading::Limits;

pub fn begins_value(kind: Kind) -> bool
    ensures { result ≡ no_mark (class_kind kind) }
{
    match kind {
        Kind::Symbol(sign) => {
            matches!(sign, Sign::RoundOpen | Sign::CurlyOpen | Sign::SquareOpen)
        }
        Kind::Colon => false,
        _ => true,
    }
}

pub fn is_close(kind: Kind) -> bool
    ensures { result ≡ is_close_of (class_kind kind) }
{
    matches!(kind, Kind::Symbol(Sign::RoundClose))
}

// `<-`, where the rules retire it.
pub fn is_retired(limits: Limits, t: Token) -> bool
    ensures { Says result (Retired limits t) }
{
    !limits.arrow && matches!(t.kind, Kind::Symbol(Sign::ArrowLeft))
}
