// A run of bytes of one class.
ghost use Rattle.std.specs.Prelude.{◌≡◌};
ghost use Rattle.rules.specs.Class.{Class, has};
ghost use Rattle.rules.specs.Rule.{one, many, Longest};

// A test of a byte, that tells one class. No closure: `run` would have to ask that it may be called, and no public function asks anything.
pub trait Test {
    // The class that it tells.
    ghost class: { Self → Class };

    // Whether the byte is of the class.
    fn passes(&self, b: u8) -> bool
        ensures { result ≡ has (class self.now) b };
}

// Where the bytes end that stand side by side from `at` on and pass the test.
pub fn run<T: Test>(text: &[u8], at: usize, test: &T) -> usize
    ensures { Longest text.now (many (one (T.class test.now))) at result }
{
    // By hand: `find` over the range costs one instruction a byte more in words.
    let mut i = at;
    while i < text.len() {
        if !test.passes(text[i]) {
            return i;
        }
        i += 1;
    }
    i
}
