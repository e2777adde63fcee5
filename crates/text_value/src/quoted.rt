// The characters of a quoted text, segment by segment. The functions have a `requires` each: their caller has found the literal.
ghost use Rattle.rules.specs.Rule.{At};
ghost use Rattle.values.specs.QuotedBytes.{backslash, not_quote, Angled, Item, Unescapes, Copies, SegmentBytes};
ghost use Rattle.text_value.specs.Parts.{Stands, Wrote, HasQuoted, WroteQuoted};

use crate::bytes::encode;
use crate::code::code;
use buffer::Writer;
use lexicon::Literal;
use space::space;
use text::byte::stands;
use text::run::{Test, run};

// A code point by its number, and the closing angle; the place behind it.
#[inline(always)]
fn angled(piece: &[u8], at: usize, out: &mut Writer) -> usize
    requires { Stands (Angled piece.now) at }
    ensures { Wrote (Angled piece.now) at result out.old out.new }
{
    let Some(Literal { end, .. }) = string::code_point::code_point(piece, at) else {
        unreachable!();
    };
    encode(code(piece, at, end), out);
    end + 1
}

// A backslash, and a letter or a code point by its number.
#[inline(always)]
fn escape(piece: &[u8], at: usize, out: &mut Writer) -> usize
    requires { Stands (Item piece.now) at × At piece.now backslash at }
    ensures { Wrote (Item piece.now) at result out.old out.new }
{
    let character = match piece[at + 1] {
        b'q' => 0x22,
        b'g' => 0x60,
        b'b' => 0x5C,
        b't' => 0x09,
        b'n' => 0x0A,
        b'r' => 0x0D,
        b'<' => return angled(piece, at + 2, out),
        _ => unreachable!(),
    };
    out.put(character);
    at + 2
}

// Characters and escapes, through the closing quote.
#[inline(always)]
fn escaped(piece: &[u8], at: usize, out: &mut Writer) -> usize
    requires { Stands (Unescapes piece.now) at }
    ensures { Wrote (Unescapes piece.now) at result out.old out.new }
{
    let mut i = at;
    // A loop by hand: how long an escape is, only reading it tells.
    while !stands(piece, i, b'"') {
        if stands(piece, i, b'\\') {
            i = escape(piece, i, out);
            continue;
        }
        out.put(piece[i]);
        i += 1;
    }
    i + 1
}

// A byte that ends no segment without escapes.
struct NotQuote;

impl Test for NotQuote {
    ghost class = { λ _. not_quote };

    #[tactic(auto, unfolding(rules::specs::Class::has))]
    fn passes(&self, b: u8) -> bool {
        b != b'"'
    }
}

// Characters, each of them itself, through the closing quote.
#[inline(always)]
fn plain(piece: &[u8], at: usize, out: &mut Writer) -> usize
    requires { Stands (Copies piece.now) at }
    ensures { Wrote (Copies piece.now) at result out.old out.new }
{
    let end = run(piece, at, &NotQuote);
    out.copy(&piece[at..end]);
    end + 1
}

// A segment. It is an escaped one only if a backslash stands first in it.
#[inline(always)]
fn segment(piece: &[u8], at: usize, out: &mut Writer) -> usize
    requires { Stands (SegmentBytes piece.now) at }
    ensures { Wrote (SegmentBytes piece.now) at result out.old out.new }
{
    if stands(piece, at + 1, b'\\') {
        return escaped(piece, at + 2, out);
    }
    plain(piece, at + 1, out)
}

// All the segments.
#[inline(always)]
pub(crate) fn quoted(piece: &[u8], out: &mut Writer)
    requires { HasQuoted piece.now }
    ensures { WroteQuoted piece.now out.old out.new }
{
    let mut i = 0;
    // A loop by hand: where the next segment begins, only reading this one and the space behind it tells.
    loop {
        let end = segment(piece, i, out);
        if end == piece.len() {
            return;
        }
        i = space(piece, end);
    }
}
