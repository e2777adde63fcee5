// A Text by the form in which it stands in the text.
ghost use Rattle.std.specs.Prelude.{◌≤◌, length};
ghost use Rattle.buffer.specs.Appends.{Appends, AppendsPart};
ghost use Rattle.form.specs.Spell.{quoted_bytes};
ghost use Rattle.form.proofs.Walk.{Spelled};

use crate::bare::bare;
use buffer::Writer;
use lexicon::Form;

// A bare head word that is no head.
fn in_quotes(word: &[u8], out: &mut Writer)
    ensures { Appends out.old (quoted_bytes word.now) out.new }
{
    out.put(b'"');
    out.copy(word);
    out.put(b'"');
}

// A Text from one place to the other.
pub(crate) fn spelled(text: &[u8], form: Form, first: usize, end: usize, out: &mut Writer)
    requires { (first ≤ end) × (end ≤ length text.now) }
    ensures { AppendsPart (Spelled text.now form (record { first = first; end = end })) out.old out.new }
{
    let literal = &text[first..end];
    match form {
        Form::Quoted => bare(literal, out),
        Form::HeadWord(_) => in_quotes(literal, out),
        // the `_` of a word is its own
        Form::Word | Form::CodePoint => out.copy(literal),
    }
}
