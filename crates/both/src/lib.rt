// One text at both levels: the old reading and the new.
#![tactic(auto)]

ghost use Rattle.reading.specs.Sizes.{base, old_rules};
ghost use Rattle.demands.specs.Demands.{Demands};

use reading::Answer;
use tree::read::{read, read_old};

// The answers of the lower level and of the higher.
#[derive(Drop)]
pub struct Readings {
    pub old: Answer,
    pub new: Answer,
}

// Reads the text at level 1 into the first table and at level 2 into the second. All three demands hold of the two readings: each has its
// one answer, each accepts exactly what is derived, and with equal tables they end alike, unless level 1 names a newer form.
pub fn read_both(text: &[u8], first: &mut [u32], second: &mut [u32]) -> Readings
    ensures { Demands base text.now first.old second.old result.old first.new result.new second.new }
{
    let old = read(1, text, first);
    let new = read(2, text, second);
    Readings { old, new }
}

// The same by the old rules, by which the texts of stored files are read.
// A function of its own: one over both would take a reader, and promise what the reader's bound promises, which is no plainer.
pub fn read_both_old(text: &[u8], first: &mut [u32], second: &mut [u32]) -> Readings
    ensures { Demands old_rules text.now first.old second.old result.old first.new result.new second.new }
{
    let old = read_old(1, text, first);
    let new = read_old(2, text, second);
    Readings { old, new }
}
