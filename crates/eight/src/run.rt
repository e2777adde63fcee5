// A run of eights of bytes of one class, for any test of them. The library's own runs, in `space`, `utf8` and `string`, are loops of
// their own, so that an edit of one is refused for what it says of its text.
ghost use Rattle.std.specs.Prelude.{◌≡◌, List, ℕ, ◌+◌};
ghost use Rattle.rules.specs.Class.{Class};
ghost use Rattle.rules.specs.Rule.{many, Takes, Longest};
ghost use Rattle.rules.specs.Test.{Says};
ghost use Rattle.lexicon.specs.Literals.{unit};

// A test of eight bytes of a text at once, that tells one class. No closure: `run` would have to ask that it may be called, and no
// public function asks anything.
pub trait Test {
    // The bytes of the text, and the class that it tells.
    ghost bytes: { Self → List ℕ };

    ghost class: { Self → Class };

    // The text.
    fn text(&self) -> &[u8]
        ensures { result.now ≡ bytes self.now };

    // Whether eight bytes of the class stand from `at` on.
    fn passes(&self, at: usize) -> bool
        ensures { Says result (Takes (bytes self.now) (unit 8 (class self.now)) at (at + 8)) };
}

// Where the eights end that stand side by side in the text from `at` on and pass the test.
pub fn run<T: Test>(at: usize, test: &T) -> usize
    ensures { Longest (T.bytes test.now) (many (unit 8 (T.class test.now))) at result }
{
    let text = test.text();
    // By hand, which is plainer: a chain over chunks of eight would count them and make a place of the count.
    let mut i = at;
    while i < text.len() && test.passes(i) {
        i += 8;
    }
    i
}
