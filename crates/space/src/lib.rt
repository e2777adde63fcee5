// Dividing space: any run of the four dividing bytes and whole comments.
#![tactic(auto)]

pub mod front;
pub mod joint;

ghost use Rattle.rules.specs.Rule.{many, Longest};
ghost use Rattle.lexicon.specs.Literals.{unit};
ghost use Rattle.lexicon.specs.Space.{not_grave, Skips};

use eight::no_grave;

const GRAVE: u8 = b'`';

// Where the eights of bytes at `at` end that have no grave accent among them.
fn eights(text: &[u8], at: usize) -> usize
    ensures { Longest text.now (many (unit 8 not_grave)) at result }
{
    let mut i = at;
    while no_grave(text, i) {
        i += 8;
    }
    i
}

// Where the dividing space at `at` ends: `at` itself if there is none.
pub fn space(text: &[u8], at: usize) -> usize
    ensures { Skips text.now at result }
{
    // Labels that lead out of both loops: a form that the project prescribes (docs/DECISIONS.md).
    let mut end = at;
    'space: while end < text.len() {
        match text[end] {
            0x09 | 0x0A | 0x0D | 0x20 => {
                end += 1;
                continue 'space;
            }
            // A comment, if another closes it.
            GRAVE => {}
            _ => {
                break 'space;
            }
        }
        // By eights first, since a comment may be long.
        let mut i = eights(text, end + 1);
        loop {
            // A grave accent without a partner is no space.
            if i == text.len() {
                break 'space;
            }
            if text[i] == GRAVE {
                end = i + 1;
                continue 'space;
            }
            i += 1;
        }
    }
    end
}
