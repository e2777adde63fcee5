// Code points as bytes.
ghost use Rattle.std.specs.Prelude.{[], ◌∷◌, ◌<◌};
ghost use Rattle.lexicon.specs.Encode.{tail_of, encode as encode_of};
ghost use Rattle.buffer.specs.Appends.{Appends};

use buffer::Writer;

// A continuation byte: the last six bits.
#[inline(always)]
fn tail(code: u32, out: &mut Writer)
    ensures { Appends out.old (tail_of code ∷ []) out.new }
{
    out.put((0x80 + code % 64) as u8);
}

// A code point, in one to four bytes. Its caller has found it to be one.
#[inline(always)]
pub(crate) fn encode(code: u32, out: &mut Writer)
    requires { code < 0x110000 }
    ensures { Appends out.old (encode_of code) out.new }
{
    if code < 0x80 {
        return out.put(code as u8);
    }
    if code < 0x800 {
        out.put((0xC0 + code / 64) as u8);
        return tail(code, out);
    }
    if code < 0x1_0000 {
        out.put((0xE0 + code / 4096) as u8);
        tail(code / 64, out);
        return tail(code, out);
    }
    out.put((0xF0 + code / 262144) as u8);
    tail(code / 4096, out);
    tail(code / 64, out);
    tail(code, out);
}
