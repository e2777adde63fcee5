// One segment of a quoted text. It is an escaped one only if a backslash stands first in it.
ghost use Rattle.std.specs.Prelude.{◌≡◌, ◌+◌};
ghost use Rattle.rules.specs.Test.{Says};
ghost use Rattle.rules.specs.Class.{has};
ghost use Rattle.rules.specs.Rule.{one, many, Takes, Longest};
ghost use Rattle.lexicon.specs.Found.{Finds, Judges};
ghost use Rattle.lexicon.specs.Literals;
ghost use Rattle.lexicon.specs.Bad.{BadEscape};
ghost use Rattle.string.specs.FirstBad.{RestWalked, SegmentWalked};
ghost use Rattle.string.specs.Parts;
ghost use Rattle.string.specs.Parts.{BadAngled};

use crate::code_point::code_point;
use lexicon::Literal;
use text::byte::{stands, within};
use text::run::Test;
use utf8::sequence;

// Where a part of a quoted text ends, and the backslash of the first bad escape in it, if there is one.
#[derive(Drop)]
pub struct Walk {
    pub end: usize,
    pub bad: Option<usize>,
}

// Whether a byte of ASCII may stand inside quotes as it is, other than a backslash: all from the space on but three.
#[tactic(auto, unfolding(rules::specs::Class::has))]
fn is_plain(b: u8) -> bool
    ensures { result ≡ has Literals.plain_byte b }
{
    match b {
        b'"' | b'\\' | b'`' => false,
        0x20..=0x7F => true,
        _ => false,
    }
}

// Such a byte.
struct PlainByte;

impl Test for PlainByte {
    ghost class = { λ _. Literals.plain_byte };

    fn passes(&self, b: u8) -> bool {
        is_plain(b)
    }
}

// Whether such a byte stands at the place.
fn plain_byte(text: &[u8], at: usize) -> bool
    ensures { Says result (Takes text.now (one Literals.plain_byte) at (at + 1)) }
{
    text.get(at).is_some_and(|b| is_plain(*b))
}

// The end of the run of such bytes at the place: by eights first, since it may be long, but not where there is none, as between two
// characters of several bytes.
#[inline(always)]
fn run(text: &[u8], at: usize) -> usize
    ensures { Longest text.now (many (one Literals.plain_byte)) at result }
{
    if !plain_byte(text, at) {
        return at;
    }
    let mut i = at;
    while eight::plain(text, i) {
        i += 8;
    }
    text::run::run(text, i, &PlainByte)
}

// A character that may stand inside quotes as it is, other than a backslash.
fn character(text: &[u8], at: usize) -> Option<usize>
    ensures { Finds text.now Literals.unescaped at result }
{
    let b = *text.get(at)?;
    match b {
        // Of ASCII the byte decides alone.
        0x00..=0x7F => is_plain(b).then_some(at + 1),
        // U+0080 to U+009F may not stand.
        0xC2 => within(text, at + 1, 0xA0, 0xBF).then_some(at + 2),
        _ => sequence(text, at),
    }
}

// A code point by its number and the closing angle.
fn angled(text: &[u8], at: usize) -> Option<Literal>
    ensures { Judges text.now Parts.angled (BadAngled text.now) at result }
{
    let Literal { end, bad } = code_point(text, at)?;
    stands(text, end, b'>').then_some(Literal { end: end + 1, bad })
}

// A backslash, and a letter or a code point by its number.
#[inline(always)]
fn escape(text: &[u8], at: usize) -> Option<Literal>
    ensures { Judges text.now Literals.escape (BadEscape text.now) at result }
{
    if !stands(text, at, b'\\') {
        return None;
    }
    let end = at + 2;
    // Six letters, the angle, and a rest that refuses: a form that the project prescribes (docs/DECISIONS.md).
    let letter = Some(Literal { end, bad: false });
    match *text.get(at + 1)? {
        b'q' => letter,
        b'g' => letter,
        b'b' => letter,
        b't' => letter,
        b'n' => letter,
        b'r' => letter,
        b'<' => angled(text, end),
        _ => None,
    }
}

// A character or an escape.
#[inline(always)]
fn item(text: &[u8], at: usize) -> Option<Literal>
    ensures { Judges text.now Parts.item (BadEscape text.now) at result }
{
    // An escape is told by its backslash, which is no character: few instructions for each.
    if stands(text, at, b'\\') {
        return escape(text, at);
    }
    let end = character(text, at)?;
    Some(Literal { end, bad: false })
}

// A character or a backslash.
fn restricted(text: &[u8], at: usize) -> Option<usize>
    ensures { Finds text.now Literals.restricted at result }
{
    match character(text, at) {
        Some(end) => Some(end),
        None if stands(text, at, b'\\') => Some(at + 1),
        None => None,
    }
}

// Characters and backslashes up to the closing quote, which begins none of them.
#[inline(always)]
fn plain(text: &[u8], at: usize) -> Option<usize>
    ensures { Finds text.now Parts.plain_rest at result }
{
    // By hand: each turn goes on by the length of what it found, and only the last one knows the end.
    let mut i = at;
    loop {
        i = run(text, i);
        // What ends most runs, so it is asked first.
        if stands(text, i, b'"') {
            return Some(i + 1);
        }
        i = restricted(text, i)?;
    }
}

// Characters and escapes up to the closing quote, which begins none of them. Always inlined, as `plain` is: a text may have a segment for
// each three of its bytes.
#[inline(always)]
fn escaped(text: &[u8], at: usize) -> Option<Walk>
    ensures { RestWalked text.now at result }
{
    // By hand, as above.
    let mut i = at;
    let mut bad = None;
    loop {
        i = run(text, i);
        if stands(text, i, b'"') {
            return Some(Walk { end: i + 1, bad });
        }
        let found = item(text, i)?;
        bad = bad.or(found.bad.then_some(i));
        i = found.end;
    }
}

// A segment.
#[inline(always)]
pub fn segment(text: &[u8], at: usize) -> Option<Walk>
    ensures { SegmentWalked text.now at result }
{
    if !stands(text, at, b'"') {
        return None;
    }
    if stands(text, at + 1, b'\\') {
        return escaped(text, at + 2);
    }
    let end = plain(text, at + 1)?;
    Some(Walk { end, bad: None })
}
