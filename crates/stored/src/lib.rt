// The stored file of a text: written, and checked.
// A function with a `requires` is this crate's own. `write` and `check`, the public ones, have none.
#![tactic(auto)]

mod file;

ghost use Rattle.std.specs.Prelude.{◌≡◌, ◌≤◌, length};
ghost use Rattle.rules.specs.Test.{Says};
ghost use Rattle.reading.specs.Sizes.{base, old_rules};
ghost use Rattle.reading.specs.Answers.{Answers, answer};
ghost use Rattle.reading.specs.Refusals.{number_of};
ghost use Rattle.files.specs.Writes.{Writes};
ghost use Rattle.files.specs.Checks.{Unmarked, OtherVersion, Stored, Checks};

use crate::file::{File, MARK, VERSION, number_bytes};
use buffer::Writer;
use reading::{Answer, Refusal, Refused, TABLE};
use tree::read::{read, read_old};

// The level at which both calls read.
const LEVEL: u32 = 2;

// The fewest bytes that can tell mark and version.
const HEAD: usize = 5;

// Writes the table of a text, read at level 2 by the rules of today, as a stored file: none is written of a text with `<-`.
#[tactic(auto, using(crate::proofs::Calls::too_short_read))]
pub fn write(text: &[u8], buffer: &mut [u8]) -> Answer
    ensures { Writes base text.now buffer.old result buffer.new }
{
    let mut table = [0; TABLE];
    let answer = read(LEVEL, text, &mut table);
    // By the number: what a reading promises (`Answers`) is told by it.
    if answer.number != 0 {
        return answer;
    }
    let file = File {
        table: &table,
        nodes: answer.count,
        size: text.len(),
    };
    let needed = file.len();
    if buffer.len() < needed {
        return Answer::no_room(text.len(), needed);
    }
    let mut out = Writer::new(buffer);
    file.write(&mut out);
    Answer::accepted(text.len(), needed)
}

// Refusal 12.
fn unmarked(file: &[u8]) -> bool
    ensures { Says result (Unmarked file.now) }
{
    file.len() < HEAD || !file.starts_with(&MARK)
}

// Refusal 13, behind a right mark.
fn other_version(file: &[u8]) -> bool
    requires { 5 ≤ length file.now }
    ensures { Says result (OtherVersion file.now) }
{
    file[MARK.len()..HEAD] != number_bytes(VERSION)[..]
}

// The reading of a text that has been stored, by the old rules: files of texts with `<-` were written under them.
fn reading(text: &[u8], table: &mut [u32]) -> Answer
    ensures { Answers old_rules text.now table.old 2 result table.new }
{
    read_old(LEVEL, text, table)
}

// Whether the file is exactly what `write` gave for the text under the old rules.
fn stored(text: &[u8], file: &[u8]) -> bool
    ensures { Says result (Stored old_rules text.now file.now) }
{
    let mut table = [0; TABLE];
    let answer = reading(text, &mut table);
    // By the number: what a reading promises (`Answers`) is told by it.
    if answer.number != 0 {
        return false;
    }
    let written = File {
        table: &table,
        nodes: answer.count,
        size: text.len(),
    };
    written.is(file)
}

// A refusal of the checker, with place and count 0.
fn refused(refusal: Refusal) -> Answer
    ensures { result ≡ answer (number_of refusal) 0 0 }
{
    Answer::from(Refused { refusal, place: 0 })
}

// Whether the file is the stored file of the text. The text is read only behind a right mark and version.
pub fn check(text: &[u8], file: &[u8]) -> Answer
    ensures { Checks old_rules text.now file.now result }
{
    if unmarked(file) {
        return refused(Refusal::NotTheMark);
    }
    if other_version(file) {
        return refused(Refusal::OtherVersion);
    }
    if !stored(text, file) {
        return refused(Refusal::NotTheFile);
    }
    Answer::accepted(text.len(), file.len())
}
