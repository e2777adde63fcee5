// The calls themselves: the refusals in their order, then the value.
// A function with a `requires` is this crate's own: its caller has tested the piece. `blob` and `bits`, the public ones, have none.
ghost use Rattle.std.specs.Prelude.{◌≤◌, length};
ghost use Rattle.lexicon.specs.Utf8.{WellFormed};
ghost use Rattle.reading.specs.Sizes.{base as rules, widest};
ghost use Rattle.values.specs.Bytes.{BytesAnswers};
ghost use Rattle.values.specs.Blob.{blob_call, BlobAnswers};
ghost use Rattle.values.specs.Bits.{bits_call, BitsAnswers};
ghost use Rattle.piece.specs.Fits.{Judges};
ghost use Rattle.blob_value.specs.declared.Kind.TheVariants as Kinds;
ghost use Rattle.blob_value.specs.Marks.{kind_of};
ghost use Rattle.blob_value.specs.Spread.{Whole, Has, Measured, Spread};
ghost use Rattle.blob_value.specs.Calls.{call_of, Sound, Marked, Padded};

use crate::mark::Mark;
use crate::spread::{count, units};
use buffer::Writer;
use lexicon::Literal;
use piece::{NOT_THE_LITERAL, sound};
use reading::{Answer, Refusal, Refused};
use space::space;
use text::byte::stands;

// The mark of a Blob literal that has bytes, or the first refusal. The byte behind `0x` tells the base.
fn judge_blob(piece: &[u8]) -> Result<Mark, Refused>
    ensures { Judges blob_call piece.now (Marked Kinds.Blob piece.now) rules result }
{
    sound(piece)?;
    let Some(Literal { end, bad }) = number::blob::blob(piece, 0) else {
        return Err(NOT_THE_LITERAL);
    };
    if end != piece.len() {
        return Err(NOT_THE_LITERAL);
    }
    if bad {
        return Err(Refused {
            refusal: Refusal::BadValue,
            place: 0,
        });
    }
    match piece[2] {
        b'b' => Ok(Mark::BlobBinary),
        b'x' => Ok(Mark::BlobHexadecimal),
        _ => Ok(Mark::BlobBase64),
    }
}

// The mark of a Bits literal, or the first refusal. The byte behind `0b` tells the base.
// Not one function with `judge_blob`: the search, its answer, the bad value and the marks are others.
fn judge_bits(piece: &[u8]) -> Result<Mark, Refused>
    ensures { Judges bits_call piece.now (Marked Kinds.Bits piece.now) rules result }
{
    sound(piece)?;
    if number::blob::bits(piece, 0) != Some(piece.len()) {
        return Err(NOT_THE_LITERAL);
    }
    match piece[2] {
        b'b' => Ok(Mark::BitsBinary),
        b'o' => Ok(Mark::BitsOctal),
        _ => Ok(Mark::BitsHexadecimal),
    }
}

// How many bytes all the units fill, what `=` stands for too. A mark alone has none.
fn measured(piece: &[u8], mark: Mark) -> usize
    requires { Has (Whole piece.now mark) × (length piece.now ≤ widest) }
    ensures { Measured mark (Whole piece.now mark) result }
{
    if piece.len() == 3 {
        return 0;
    }
    let start = space(piece, 3);
    count(piece, start, mark.unit()) * mark.bytes()
}

// These bytes from the start of the buffer on.
fn write(piece: &[u8], mark: Mark, buffer: &mut [u8])
    requires { Has (Whole piece.now mark) }
    ensures { Spread mark (Whole piece.now mark) buffer.old buffer.new }
{
    if piece.len() == 3 {
        return;
    }
    let start = space(piece, 3);
    let mut out = Writer::new(buffer);
    units(piece, start, mark, &mut out);
}

// How many `=` end the literal.
fn padding(piece: &[u8], mark: Mark) -> usize
    requires { Has (Whole piece.now mark) }
    ensures { Padded piece.now mark result }
{
    let Mark::BlobBase64 = mark else {
        return 0;
    };
    if !stands(piece, piece.len() - 1, b'=') {
        return 0;
    }
    if stands(piece, piece.len() - 2, b'=') {
        2
    } else {
        1
    }
}

// The bytes if they fit. They are measured first, so that nothing is written where they don't.
#[tactic(auto, using(crate::proofs::Calls::too_small))]
fn fitting(piece: &[u8], mark: Mark, buffer: &mut [u8]) -> Answer
    requires { Sound piece.now mark × (length piece.now ≤ rules.text) × WellFormed piece.now }
    ensures { BytesAnswers (call_of (kind_of mark)) rules piece.now buffer.old result buffer.new }
{
    let needed = measured(piece, mark) - padding(piece, mark);
    if buffer.len() < needed {
        return Answer::no_room(piece.len(), needed);
    }
    // No byte beyond those needed fits in this part: what a `=` stands for is not written.
    write(piece, mark, &mut buffer[..needed]);
    Answer::accepted(piece.len(), needed)
}

// The bytes of a piece that is exactly one Blob literal, from the start of the buffer.
pub fn blob(piece: &[u8], buffer: &mut [u8]) -> Answer
    ensures { BlobAnswers rules piece.now buffer.old result buffer.new }
{
    match judge_blob(piece) {
        Ok(mark) => fitting(piece, mark, buffer),
        Err(refused) => refused.into(),
    }
}

// The bits of a piece that is exactly one Bits literal, a byte each, 0 or 1, from the start of the buffer.
pub fn bits(piece: &[u8], buffer: &mut [u8]) -> Answer
    ensures { BitsAnswers rules piece.now buffer.old result buffer.new }
{
    match judge_bits(piece) {
        Ok(mark) => fitting(piece, mark, buffer),
        Err(refused) => refused.into(),
    }
}
