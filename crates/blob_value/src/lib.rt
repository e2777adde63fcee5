// The value calls for Blobs and Bits: the bytes of a Blob literal, and the bits of a Bits literal, a byte each.
#![tactic(auto)]

mod mark;
mod spread;
pub mod value;

// Which of the two calls.
#[derive(Clone, Copy)]
enum Kind {
    Blob,
    Bits,
}
