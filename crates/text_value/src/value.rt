// The call itself: the refusals in their order, then the value.
// A function with a `requires` is this crate's own: its caller has tested the piece. `text`, the public one, has none.
ghost use Rattle.std.specs.Prelude.{◌≤◌, length};
ghost use Rattle.rules.specs.Rule.{Fails};
ghost use Rattle.lexicon.specs.Literals;
ghost use Rattle.lexicon.specs.Utf8.{WellFormed};
ghost use Rattle.reading.specs.Sizes.{base as rules};
ghost use Rattle.values.specs.Text.{text_call, TextAnswers};
ghost use Rattle.piece.specs.Fits.{Fits, Judges};
ghost use Rattle.text_value.specs.Shapes.{Shaped, AppendsText, WroteText};

use crate::bytes::encode;
use crate::code::code;
use crate::quoted::quoted;
use buffer::Writer;
use lexicon::Literal;
use piece::{NOT_THE_LITERAL, sound};
use reading::{Answer, Refusal, Refused};
use string::quoted::first_bad;

// How a Text is written.
#[derive(Clone, Copy)]
enum Shape {
    Quoted,
    Word,
    CodePoint,
}

// The shape of a piece that is neither quoted nor a word.
fn coded(piece: &[u8]) -> Result<Shape, Refused>
    requires { Fails piece.now Literals.quoted 0 × Fails piece.now Literals.word 0 }
    ensures { Fits text_call piece.now (Shaped piece.now) result }
{
    let Some(Literal { end, bad }) = string::code_point::code_point(piece, 0) else {
        return Err(NOT_THE_LITERAL);
    };
    if end != piece.len() {
        return Err(NOT_THE_LITERAL);
    }
    if bad {
        return Err(Refused {
            refusal: Refusal::BadValue,
            place: 0,
        });
    }
    Ok(Shape::CodePoint)
}

// The shape of a piece that is not quoted.
fn unquoted(piece: &[u8]) -> Result<Shape, Refused>
    requires { Fails piece.now Literals.quoted 0 }
    ensures { Fits text_call piece.now (Shaped piece.now) result }
{
    let Some(end) = word::word::word(piece, 0) else {
        return coded(piece);
    };
    if end != piece.len() {
        return Err(NOT_THE_LITERAL);
    }
    Ok(Shape::Word)
}

// The shape of a piece that is exactly one Text literal whose value is not bad.
fn shape_of(piece: &[u8]) -> Result<Shape, Refused>
    ensures { Fits text_call piece.now (Shaped piece.now) result }
{
    let Some(Literal { end, bad }) = string::quoted::quoted(piece, 0) else {
        return unquoted(piece);
    };
    if end != piece.len() {
        return Err(NOT_THE_LITERAL);
    }
    if bad {
        return Err(Refused {
            refusal: Refusal::BadValue,
            place: first_bad(piece, 0),
        });
    }
    Ok(Shape::Quoted)
}

// The shape, or the first refusal.
fn judge(piece: &[u8]) -> Result<Shape, Refused>
    ensures { Judges text_call piece.now (Shaped piece.now) rules result }
{
    sound(piece)?;
    shape_of(piece)
}

// The characters of the piece. What writes them is always inlined, so that the writer of `write` stays in registers.
#[inline(always)]
fn characters(piece: &[u8], shape: Shape, out: &mut Writer)
    requires { Shaped piece.now shape }
    ensures { AppendsText piece.now out.old out.new }
{
    match shape {
        Shape::Quoted => quoted(piece, out),
        Shape::Word => out.copy(piece),
        Shape::CodePoint => encode(code(piece, 0, piece.len()), out),
    }
}

// The characters of the piece from the start of the buffer, and how many bytes they are.
fn write(piece: &[u8], shape: Shape, buffer: &mut [u8]) -> usize
    requires { Shaped piece.now shape }
    ensures { WroteText piece.now buffer.old buffer.new result }
{
    let mut out = Writer::new(buffer);
    characters(piece, shape, &mut out);
    out.at
}

// The characters if they fit. They are measured first, over an empty part of the buffer, so that nothing is written where they don't.
fn fitting(piece: &[u8], shape: Shape, buffer: &mut [u8]) -> Answer
    requires { Shaped piece.now shape × (length piece.now ≤ rules.text) × WellFormed piece.now }
    ensures { TextAnswers rules piece.now buffer.old result buffer.new }
{
    let needed = write(piece, shape, &mut buffer[..0]);
    if buffer.len() < needed {
        return Answer::no_room(piece.len(), needed);
    }
    let count = write(piece, shape, buffer);
    Answer::accepted(piece.len(), count)
}

// The characters of a piece that is exactly one Text literal, as UTF-8, from the start of the buffer.
pub fn text(piece: &[u8], buffer: &mut [u8]) -> Answer
    ensures { TextAnswers rules piece.now buffer.old result buffer.new }
{
    match judge(piece) {
        Ok(shape) => fitting(piece, shape, buffer),
        Err(refused) => refused.into(),
    }
}
