// What joins two units of a literal's digits: one `_`, or one stretch of dividing space.
ghost use Rattle.rules.specs.Rule.{opt, Longest};
ghost use Rattle.lexicon.specs.Literals.{joint as joint_of};

use crate::space;

// Where the joint at `at` ends: `at` itself if there is none. It is asked for behind every unit and seldom there, so most bytes are
// told at one look, with no call.
pub fn joint(text: &[u8], at: usize) -> usize
    ensures { Longest text.now (opt joint_of) at result }
{
    if text.len() <= at {
        return at;
    }
    match text[at] {
        b'_' => at + 1,
        // Every byte that may begin dividing space is among these. The range, since it is one comparison, and the four bytes are more;
        // `space` itself tells them from the others.
        0x00..=0x20 | b'`' => space(text, at),
        _ => at,
    }
}
