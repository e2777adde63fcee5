// Bytes into a lent buffer, one behind the other. A byte that does not fit is counted and not written, so that the same functions
// measure a value, over an empty part, and write it.
// Both writers are always inlined: of a writer that lies in memory each byte would read place and buffer again.
#![tactic(auto)]

ghost use Rattle.std.specs.Prelude.{[], ◌∷◌, ◌≤◌, length};
ghost use Rattle.buffer.specs.Puts.{largest};

// A lent buffer, and the place behind what is written. It may lie behind the buffer's end.
#[derive(Drop)]
pub struct Writer<'a> {
    pub buffer: &'a mut [u8],
    pub at: usize,
    // So it is of every slice and every place. It stands here so that a call that writes nothing needs no premise.
    pub ghost within: { length buffer.now ≤ largest },
    pub ghost placed: { at ≤ largest },
}

impl<'a> Writer<'a> {
    ghost use Rattle.buffer.specs.Appends.{Begins, Appends};

    // From the buffer's start on.
    pub fn new(buffer: &'a mut [u8]) -> Writer<'a>
        ensures { Begins buffer.entry result }
    {
        Writer { buffer, at: 0 }
    }

    // One byte. Behind the largest place there is none, and counting stops.
    #[inline(always)]
    pub fn put(&mut self, b: u8)
        ensures { Appends self.old (b ∷ []) self.new }
    {
        let at = self.at;
        if at >= self.buffer.len() {
            self.at = at.saturating_add(1);
            return;
        }
        self.buffer[at] = b;
        self.at = at + 1;
    }

    // The bytes of a slice.
    #[inline(always)]
    pub fn copy(&mut self, bytes: &[u8])
        ensures { Appends self.old bytes.now self.new }
    {
        // One by one: `copy_from_slice` calls functions that the archive has not (docs/DECISIONS.md, point 78).
        for b in bytes {
            self.put(*b);
        }
    }
}
