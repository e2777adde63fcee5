// What is dropped at the front: a byte order mark, then a line that begins with `#!`.
ghost use Rattle.rules.specs.Rule.{one, ◌then◌, many, opt, Longest};
ghost use Rattle.lexicon.specs.Front.{byte_order_mark, newline, not_newline, first_line, Front};

use text::byte::stands;
use text::run::{Test, run};

const NEWLINE: u8 = 0x0A;

// The end of the byte order mark at the very front: 0 if there is none.
fn mark(text: &[u8]) -> usize
    ensures { Longest text.now (opt byte_order_mark) 0 result }
{
    if !stands(text, 0, 0xEF) {
        return 0;
    }
    if !stands(text, 1, 0xBB) {
        return 0;
    }
    if !stands(text, 2, 0xBF) {
        return 0;
    }
    3
}

// A byte that ends no line.
struct NotNewline;

impl Test for NotNewline {
    ghost class = { λ _. not_newline };

    #[tactic(auto, unfolding(rules::specs::Class::has))]
    fn passes(&self, b: u8) -> bool {
        b != NEWLINE
    }
}

// The rest of a line, through its newline or to the end of the text.
fn rest(text: &[u8], at: usize) -> usize
    ensures { Longest text.now (many (one not_newline) then opt (one newline)) at result }
{
    let end = run(text, at, &NotNewline);
    if stands(text, end, NEWLINE) {
        end + 1
    } else {
        end
    }
}

// The end of the line that begins with `#!` at `at`: `at` itself if there is none.
fn line(text: &[u8], at: usize) -> usize
    ensures { Longest text.now (opt first_line) at result }
{
    if !stands(text, at, b'#') {
        return at;
    }
    if !stands(text, at + 1, b'!') {
        return at;
    }
    rest(text, at + 2)
}

// Where tokens begin.
pub fn front(text: &[u8]) -> usize
    ensures { Front text.now result }
{
    line(text, mark(text))
}
