// A Text or a Nesting, token by token: which word a word is, and so whether it is a head word, its token tells.
ghost use Rattle.std.specs.Prelude.{◌≤◌, length};
ghost use Rattle.buffer.specs.Appends.{AppendsPart};
ghost use Rattle.form.proofs.Walk.{NameToken, Named};

use crate::spelling::spelled;
use buffer::Writer;
use lexicon::{Kind, Next, Token};
use token::next::next;

// One of its tokens.
fn name_token(text: &[u8], t: Token, out: &mut Writer)
    requires { (t.first ≤ t.end) × (t.end ≤ length text.now) }
    ensures { AppendsPart (NameToken text.now t) out.old out.new }
{
    match t.kind {
        Kind::Text(form) => spelled(text, form, t.first, t.end, out),
        _ => out.copy(b"::"),
    }
}

// The tokens from one place to the other.
pub(crate) fn names(text: &[u8], first: usize, end: usize, out: &mut Writer)
    ensures { AppendsPart (Named text.now first end) out.old out.new }
{
    // A token has as many bytes as it has, so no range counts the places.
    let mut i = first;
    while i < end {
        let Next::Token(t) = next(text, i) else {
            return;
        };
        name_token(text, t, out);
        i = t.end;
    }
}
