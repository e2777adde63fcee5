// Where a value begins.
ghost use Rattle.std.specs.Prelude.{◌≤◌, ◌<◌};

use lexicon::Token;

// The first token of a value, the index of its node, and the index of its parent's. No more nodes stand before a token than bytes.
#[derive(Clone, Copy)]
pub struct Start {
    pub token: Token,
    pub index: usize,
    pub parent: usize,
    ghost some_byte: { token.first < token.end },
    ghost index_fits: { index ≤ token.first },
    ghost parent_fits: { parent ≤ index },
}
