// Quoted texts: one segment or more, with dividing space between them.
ghost use Rattle.lexicon.specs.Found.{Judges};
ghost use Rattle.lexicon.specs.Literals;
ghost use Rattle.lexicon.specs.Bad.{BadQuoted};
ghost use Rattle.string.specs.FirstBad.{QuotedWalked, Points};

use crate::segment::{Walk, segment};
use lexicon::Literal;
use space::space;

// Where the quoted text at the place ends, and its first bad escape. A further segment belongs to it only if it is whole.
fn segments(text: &[u8], at: usize) -> Option<Walk>
    ensures { QuotedWalked text.now at result }
{
    let Walk { mut end, mut bad } = segment(text, at)?;
    while let Some(further) = segment(text, space(text, end)) {
        end = further.end;
        bad = bad.or(further.bad);
    }
    Some(Walk { end, bad })
}

// Where the quoted text at the place ends, and whether it has a number that is none of a code point.
pub fn quoted(text: &[u8], at: usize) -> Option<Literal>
    ensures { Judges text.now Literals.quoted (BadQuoted text.now) at result }
{
    let Walk { end, bad } = segments(text, at)?;
    Some(Literal {
        end,
        bad: bad.is_some(),
    })
}

// The backslash of the first bad escape in the quoted text at the place; the place itself where there is none.
pub fn first_bad(text: &[u8], at: usize) -> usize
    ensures { Points text.now at result }
{
    segments(text, at).and_then(|walk| walk.bad).unwrap_or(at)
}
