// Reads standard input at level 2 and writes the listing. A read or write that fails ends the program with its error.
#![tactic(auto)]

ghost use Rattle.muon.specs.Input.{Within};

use listing::{LONGEST, list};
use reading::{TABLE, TEXT};
use std::io::{self, Read};

const LEVEL: u32 = 2;

// The longest text and one byte more: a full buffer is a text too long.
const INPUT: usize = TEXT + 1;

// Reads until the input ends or the buffer is full, in whatever pieces it comes: how many bytes that were.
fn read_all(source: &mut impl Read, buffer: &mut [u8]) -> io::Result<usize>
    ensures { Within buffer.new result }
{
    // A read gives as many bytes as it likes, so no range counts them.
    let mut n = 0;
    while n < buffer.len() {
        match source.read(&mut buffer[n..])? {
            0 => return Ok(n),
            more => n += more,
        }
    }
    Ok(n)
}

fn answer(rt: &impl Print, text: &[u8]) -> io::Result<()> {
    let mut table = [0; TABLE];
    let mut out = [0; LONGEST];
    let n = list(LEVEL, text, &mut table, &mut out);
    rt.write_all(&out[..n])
}

fn main(rt: HostRuntime) -> io::Result<()> {
    let mut text = [0; INPUT];
    let n = read_all(&mut rt.stdin(), &mut text)?;
    answer(&rt, &text[..n])
}
