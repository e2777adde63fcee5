// Line and column of a place in a text, for those who are told of a refusal.
#![tactic(auto)]

ghost use Rattle.std.specs.Prelude.{◌≤◌, ◌<◌, length};
ghost use Rattle.values.specs.Position.{Lines, Character, Before, Position as Stands};

use utf8::sequence;

// Both are counted from 1.
#[derive(Drop)]
pub struct Position {
    pub line: usize,
    pub column: usize,
}

// The line of a place, and where it begins.
#[derive(Drop)]
struct Line {
    number: usize,
    begin: usize,
}

// What ends a line.
const FEED: u8 = 0x0A;

fn line_of(text: &[u8], end: usize) -> Line
    requires { end ≤ length text.now }
    ensures { Lines text.now end result.number result.begin }
{
    let mut number = 1;
    let mut begin = 0;
    for (i, b) in text[..end].iter().enumerate() {
        if *b == FEED {
            number += 1;
            begin = i + 1;
        }
    }
    Line { number, begin }
}

// Where the character at a place ends. A byte that begins no sequence is one by itself.
#[tactic(auto, using(values::proofs::Position::plain_byte_lem))]
fn behind(text: &[u8], at: usize) -> usize
    requires { at < length text.now }
    ensures { Character text.now at result }
{
    // Most characters of most texts: no call for one.
    if text[at] < 0x80 {
        return at + 1;
    }
    sequence(text, at).unwrap_or(at + 1)
}

// The characters from `begin` on that end before the place or at it. A character may have several bytes, so no range gives the places.
fn before(text: &[u8], begin: usize, place: usize) -> usize
    requires { (begin ≤ place) × (place ≤ length text.now) }
    ensures { Before text.now begin place result }
{
    let mut at = begin;
    let mut count = 0;
    while at < place {
        let end = behind(text, at);
        if place < end {
            return count;
        }
        at = end;
        count += 1;
    }
    count
}

pub fn line_column(text: &[u8], place: usize) -> Position
    ensures { Stands text.now place result.line result.column }
{
    // A place beyond the text is its end.
    let end = place.min(text.len());
    let line = line_of(text, end);
    let count = before(text, line.begin, end);
    Position {
        line: line.number,
        column: count + 1,
    }
}
