// The run of eights, called as another crate calls it: by the test of one text.
ghost use Rattle.std.specs.Prelude.{[], ◌∷◌};
ghost use Rattle.rules.specs.Class.{◌upto◌};
ghost use Rattle.rules.specs.Rule.{many, Longest};
ghost use Rattle.lexicon.specs.Steps;

use crate::ascii;
use crate::run::{Test, run};

// Eight plain ASCII bytes of the text.
#[derive(Drop)]
struct Ascii<'a> {
    text: &'a [u8],
}

impl Test for Ascii<'_> {
    ghost bytes = { λ a. a.text.now };

    ghost class = { λ _. 0x00 upto 0x7F ∷ [] };

    fn text(&self) -> &[u8] {
        self.text
    }

    fn passes(&self, at: usize) -> bool {
        ascii(self.text, at)
    }
}

// What a caller gets of it, in the words of the UTF-8 test.
fn eights(text: &[u8], at: usize) -> usize
    ensures { Longest text.now (many Steps.eight) at result }
{
    run(at, &Ascii { text })
}

#[test]
fn ends_behind_the_last_eight(rt: HostRuntime) {
    let text = b"Twenty bytes of it.\n\xC3\xA9 and 17 bytes more";
    for (at, end) in [
        (0, 16),
        (4, 20),
        (12, 20),
        (13, 13),
        (20, 20),
        (22, 38),
        (39, 39),
        (100, 100),
    ] {
        assert_eq!(rt; eights(text, at), end, "from {at}");
    }
}
