// The library for C: lent memory is a pointer and a length, and no two lent parts overlap.
#![tactic(auto)]

ghost use Rattle.std.specs.Prelude.{◌≡◌};
ghost use Rattle.reading.specs.Sizes.{base, old_rules};
ghost use Rattle.reading.specs.Answers.{answer, Answers};
ghost use Rattle.values.specs.Utf8.{Utf8Answers};
ghost use Rattle.values.specs.Position.{Position};
ghost use Rattle.values.specs.Integer.{IntegerAnswers};
ghost use Rattle.values.specs.Text.{TextAnswers};
ghost use Rattle.values.specs.Blob.{BlobAnswers};
ghost use Rattle.values.specs.Bits.{BitsAnswers};
ghost use Rattle.files.specs.Writes.{Writes};
ghost use Rattle.files.specs.Checks.{Checks};
ghost use Rattle.form.specs.Writes as Plain;

use lexicon::NotUtf8;
use reading::{Answer, Refusal};

// How a call with an answer of number, place and count ends: place and count where the caller wants them, and the number.
fn told(reading: Answer, place: &mut usize, count: &mut usize) -> u32
    ensures { reading ≡ answer result place.new count.new }
{
    *place = reading.place;
    *count = reading.count;
    reading.number
}

// uint32_t muon_read(uint32_t level, const void *text, size_t text_len, uint32_t *table, size_t table_len, size_t *place, size_t *count);
// The answer's number is returned, its place and count are written, and the nodes stand in the table.
#[unsafe(no_mangle)]
pub extern "C" fn muon_read(
    level: u32,
    text: &[u8],
    table: &mut [u32],
    place: &mut usize,
    count: &mut usize,
) -> u32
    ensures { Answers base text.now table.old level (answer result place.new count.new) table.new }
{
    told(tree::read::read(level, text, table), place, count)
}

// uint32_t muon_utf8(const void *text, size_t text_len, size_t *place, size_t *steps);
// Whether a text of any length is UTF-8, where it is not, and the steps of the test up to there.
#[unsafe(no_mangle)]
pub extern "C" fn muon_utf8(text: &[u8], place: &mut usize, steps: &mut usize) -> u32
    ensures { Utf8Answers text.now result place.new steps.new }
{
    let tested = utf8::tested(text);
    *steps = tested.steps;
    match tested.encoding {
        Ok(()) => {
            *place = text.len();
            0
        }
        Err(NotUtf8 { at }) => {
            *place = at;
            Refusal::NotUtf8 as u32
        }
    }
}

// void muon_line_column(const void *text, size_t text_len, size_t place, size_t *line, size_t *column);
// Line and column of a place, both from 1 on.
#[unsafe(no_mangle)]
pub extern "C" fn muon_line_column(text: &[u8], place: usize, line: &mut usize, column: &mut usize)
    ensures { Position text.now place line.new column.new }
{
    let position = position::line_column(text, place);
    *line = position.line;
    *column = position.column;
}

// uint32_t muon_integer(const void *piece, size_t piece_len, int64_t *value, size_t *place, size_t *count);
// The signed integer of an Integer literal, which the piece is exactly.
#[unsafe(no_mangle)]
pub extern "C" fn muon_integer(
    piece: &[u8],
    value: &mut i64,
    place: &mut usize,
    count: &mut usize,
) -> u32
    ensures { IntegerAnswers base piece.now (record { number = result; place = place.new; count = count.new; value = value.new }) }
{
    // By hand, not by `told`: an Integer's answer has a value too.
    let read = integer_value::integer::integer(piece);
    *value = read.value;
    *place = read.place;
    *count = read.count;
    read.number
}

// uint32_t muon_text(const void *piece, size_t piece_len, void *buffer, size_t buffer_len, size_t *place, size_t *count);
// The characters of a Text literal, which the piece is exactly, as UTF-8 from the buffer's start on.
#[unsafe(no_mangle)]
pub extern "C" fn muon_text(
    piece: &[u8],
    buffer: &mut [u8],
    place: &mut usize,
    count: &mut usize,
) -> u32
    ensures { TextAnswers base piece.now buffer.old (answer result place.new count.new) buffer.new }
{
    told(text_value::value::text(piece, buffer), place, count)
}

// uint32_t muon_blob(const void *piece, size_t piece_len, void *buffer, size_t buffer_len, size_t *place, size_t *count);
// The bytes of a Blob literal, which the piece is exactly, from the buffer's start on.
#[unsafe(no_mangle)]
pub extern "C" fn muon_blob(
    piece: &[u8],
    buffer: &mut [u8],
    place: &mut usize,
    count: &mut usize,
) -> u32
    ensures { BlobAnswers base piece.now buffer.old (answer result place.new count.new) buffer.new }
{
    told(blob_value::value::blob(piece, buffer), place, count)
}

// uint32_t muon_bits(const void *piece, size_t piece_len, void *buffer, size_t buffer_len, size_t *place, size_t *count);
// The bits of a Bits literal, which the piece is exactly, a byte each, from the buffer's start on.
#[unsafe(no_mangle)]
pub extern "C" fn muon_bits(
    piece: &[u8],
    buffer: &mut [u8],
    place: &mut usize,
    count: &mut usize,
) -> u32
    ensures { BitsAnswers base piece.now buffer.old (answer result place.new count.new) buffer.new }
{
    told(blob_value::value::bits(piece, buffer), place, count)
}

// uint32_t muon_file_write(const void *text, size_t text_len, void *buffer, size_t buffer_len, size_t *place, size_t *count);
// The stored file of a text, read at level 2, from the buffer's start on.
#[unsafe(no_mangle)]
pub extern "C" fn muon_file_write(
    text: &[u8],
    buffer: &mut [u8],
    place: &mut usize,
    count: &mut usize,
) -> u32
    ensures { Writes base text.now buffer.old (answer result place.new count.new) buffer.new }
{
    told(stored::write(text, buffer), place, count)
}

// uint32_t muon_file_check(const void *text, size_t text_len, const void *file, size_t file_len, size_t *place, size_t *count);
// Whether the file is exactly the stored file of the text, which is read by the old rules.
#[unsafe(no_mangle)]
pub extern "C" fn muon_file_check(
    text: &[u8],
    file: &[u8],
    place: &mut usize,
    count: &mut usize,
) -> u32
    ensures { Checks old_rules text.now file.now (answer result place.new count.new) }
{
    told(stored::check(text, file), place, count)
}

// uint32_t muon_plain(uint32_t level, const void *text, size_t text_len, const uint32_t *table, size_t table_len, void *buffer, size_t buffer_len, size_t *place, size_t *count);
// The plain form of a text, read at a level, with its table, from the buffer's start on.
#[unsafe(no_mangle)]
pub extern "C" fn muon_plain(
    level: u32,
    text: &[u8],
    table: &[u32],
    buffer: &mut [u8],
    place: &mut usize,
    count: &mut usize,
) -> u32
    ensures { Plain.Writes base text.now table.now buffer.old level (answer result place.new count.new) buffer.new }
{
    told(plain::write(level, text, table, buffer), place, count)
}

// uint32_t muon_convert(uint32_t level, const void *text, size_t text_len, void *buffer, size_t buffer_len, size_t *place, size_t *count);
// The plain form of a text, read at a level by the old rules, from the buffer's start on.
#[unsafe(no_mangle)]
pub extern "C" fn muon_convert(
    level: u32,
    text: &[u8],
    buffer: &mut [u8],
    place: &mut usize,
    count: &mut usize,
) -> u32
    ensures { Plain.Converts old_rules text.now buffer.old level (answer result place.new count.new) buffer.new }
{
    told(plain::convert(level, text, buffer), place, count)
}
