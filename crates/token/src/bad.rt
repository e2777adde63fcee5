// The place of a bad value.
ghost use Rattle.token.specs.Places.{PointsIn};

use lexicon::{Form, Kind, Token};
use string::quoted::first_bad;

// The place that is told with a token's bad value: inside quotes that of the first bad escape, else the token's first byte. It is
// looked for only where it is told, so that a token need not hold it.
pub fn bad_place(text: &[u8], t: Token) -> usize
    ensures { PointsIn text.now t result }
{
    match t.kind {
        Kind::Text(Form::Quoted) => first_bad(text, t.first),
        _ => t.first,
    }
}
