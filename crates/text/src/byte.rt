// One byte at a place of a text.
ghost use Rattle.std.specs.Prelude.{◌+◌};
ghost use Rattle.rules.specs.Test.{Says};
ghost use Rattle.rules.specs.Class.{just};
ghost use Rattle.rules.specs.Rule.{one, Takes};
ghost use Rattle.lexicon.specs.Utf8.{range};

// Whether a byte from `low` to `high` stands at `at`.
pub fn within(text: &[u8], at: usize, low: u8, high: u8) -> bool
    ensures { Says result (Takes text.now (range low high) at (at + 1)) }
{
    text.get(at).is_some_and(|b| (low..=high).contains(b))
}

// Whether the byte `b` stands at `at`.
pub fn stands(text: &[u8], at: usize, b: u8) -> bool
    ensures { Says result (Takes text.now (one (just b)) at (at + 1)) }
{
    text.get(at) == Some(&b)
}
