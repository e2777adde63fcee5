// A literal without dividing space, comments and `_`; inside quotes every byte stays.
ghost use Rattle.std.specs.Prelude.{◌≡◌};
ghost use Rattle.rules.specs.Class.{has};
ghost use Rattle.buffer.specs.Appends.{Appends};
ghost use Rattle.form.specs.Bare;
ghost use Rattle.leaf.specs.Bare.{where_of, kept_bytes};

use buffer::Writer;

const GRAVE: u8 = b'`';

const QUOTE: u8 = b'"';

// Where a byte of a literal stands: outside quotes and comments, or inside.
#[derive(Clone, Copy)]
enum Where {
    Outside,
    Quotes,
    Comment,
}

// What a byte outside opens.
fn opened(b: u8) -> Where
    ensures { where_of result ≡ Bare.behind Bare.outside b }
{
    match b {
        QUOTE => Where::Quotes,
        GRAVE => Where::Comment,
        _ => Where::Outside,
    }
}

// Where the next byte stands.
fn behind(place: Where, b: u8) -> Where
    ensures { where_of result ≡ Bare.behind (where_of place) b }
{
    match place {
        Where::Outside => opened(b),
        Where::Quotes => if b == QUOTE {
            Where::Outside
        } else {
            Where::Quotes
        },
        Where::Comment => if b == GRAVE {
            Where::Outside
        } else {
            Where::Comment
        },
    }
}

// Dividing bytes, the mark of a comment, and `_`.
fn dropped(b: u8) -> bool
    ensures { result ≡ has Bare.dropped b }
{
    matches!(b, 0x09 | 0x0A | 0x0D | 0x20 | GRAVE | b'_')
}

// Inside quotes every byte is kept, inside a comment none.
fn kept(place: Where, b: u8) -> bool
    ensures { result ≡ Bare.kept (where_of place) b }
{
    match place {
        Where::Outside => !dropped(b),
        Where::Quotes => true,
        Where::Comment => false,
    }
}

// The byte, if it is kept.
fn put_kept(place: Where, b: u8, out: &mut Writer)
    ensures { Appends out.old (kept_bytes (where_of place) b) out.new }
{
    if kept(place, b) {
        out.put(b);
    }
}

// The literal's bytes that are kept.
pub(crate) fn bare(literal: &[u8], out: &mut Writer)
    ensures { Appends out.old (Bare.bare literal.now) out.new }
{
    let mut place = Where::Outside;
    for b in literal {
        put_kept(place, *b, out);
        place = behind(place, *b);
    }
}
