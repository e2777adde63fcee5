// What a literal's mark tells of its digits: a unit of them fills so many bytes, and a byte holds eight bits or one.
ghost use Rattle.std.specs.Prelude.{◌≡◌, ◌*◌, ◌/◌, ◌%◌, ◌^◌, ◌<◌};
ghost use Rattle.blob_value.specs.Marks.{kind_of, unit_of, width_of, bytes_of, size_of, value_of};

use crate::Kind;
use text::digit::{digit, sextet};

// The marks `0xb`, `0xx`, `0xy` of Blobs and `0bb`, `0bo`, `0bx` of Bits.
#[derive(Clone, Copy)]
pub enum Mark {
    BlobBinary,
    BlobHexadecimal,
    BlobBase64,
    BitsBinary,
    BitsOctal,
    BitsHexadecimal,
}

impl Mark {
    // How many digits make a unit.
    pub(crate) fn unit(self) -> usize
        ensures { result ≡ unit_of self }
    {
        match self {
            Mark::BlobBinary => 8,
            Mark::BlobHexadecimal => 2,
            Mark::BlobBase64 => 4,
            Mark::BitsBinary | Mark::BitsOctal | Mark::BitsHexadecimal => 1,
        }
    }

    // How many bytes a unit fills.
    pub(crate) fn bytes(self) -> usize
        ensures { result ≡ bytes_of self }
    {
        match self {
            Mark::BlobBinary | Mark::BlobHexadecimal | Mark::BitsBinary => 1,
            Mark::BlobBase64 | Mark::BitsOctal => 3,
            Mark::BitsHexadecimal => 4,
        }
    }

    // How many values a digit has.
    pub(crate) fn radix(self) -> u64
        ensures { result ≡ 2 ^ width_of self }
    {
        match self {
            Mark::BlobBinary | Mark::BitsBinary => 2,
            Mark::BitsOctal => 8,
            Mark::BlobHexadecimal | Mark::BitsHexadecimal => 16,
            Mark::BlobBase64 => 64,
        }
    }

    // Whose literals they are: a byte of the buffer holds eight bits of a Blob, or one of Bits.
    pub(crate) fn kind(self) -> Kind
        ensures { result ≡ kind_of self }
    {
        match self {
            Mark::BlobBinary | Mark::BlobHexadecimal | Mark::BlobBase64 => Kind::Blob,
            Mark::BitsBinary | Mark::BitsOctal | Mark::BitsHexadecimal => Kind::Bits,
        }
    }
}

// The value of a digit in a unit; a `=` counts as zero bits.
pub(crate) fn digit_value(radix: u64, b: u8) -> u64
    ensures { result ≡ value_of radix b }
{
    if radix < 64 {
        return digit(b);
    }
    if b == b'=' {
        return 0;
    }
    u64::from(sextet(u32::from(b)))
}

// The bits of a number that a byte of the buffer holds, with so many such bytes behind it.
pub(crate) fn part(number: u64, behind: usize, kind: Kind) -> u8
    requires { behind < 8 }
    ensures { result ≡ number / 2 ^ (behind * size_of kind) % 2 ^ size_of kind }
{
    match kind {
        Kind::Blob => ((number >> (8 * behind)) % 256) as u8,
        Kind::Bits => ((number >> behind) % 2) as u8,
    }
}
