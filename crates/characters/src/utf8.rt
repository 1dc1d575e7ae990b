// UTF-8 by RFC 3629: a byte of a text, the code points of sequences, and one character of a text that is UTF-8.
ghost use Rattle.std.specs.Prelude.{◌≡◌, true, ◌≤◌, get_or};
ghost use Rattle.characters.specs.Choice as choice;
ghost use Rattle.characters.specs.Utf8.{is_tail, code_two, code_three, code_four, decode_at, is_valid};
ghost use Rattle.characters.specs.Valid.{bad_from};

use super::Decoded;

// The byte at a place, or 0 past the end. Each test that is asked of it refuses a NUL byte too, so no caller needs a case for the end,
// which an Option would ask for.
pub fn byte_at(text: &[u8], at: usize) -> u8
    ensures { result ≡ get_or text.now at 0 }
{
    text.get(at).copied().unwrap_or(0)
}

// Whether `b` is one from `lo` to `hi`.
pub fn within(lo: u8, hi: u8, b: u8) -> bool
    ensures { result ≡ choice.within lo hi b }
{
    (lo..=hi).contains(&b)
}

pub fn is_tail(b: u8) -> bool
    ensures { result ≡ is_tail b }
{
    (0x80..=0xBF).contains(&b)
}

// The characters of two, three and four bytes whose tails are such: the bits of the first byte behind its marker, then six of each. They
// are three, as in the RFC: one over an array of bytes would look the marker up by the width.
pub fn code_two(a: u8, b: u8) -> Decoded
    requires le_a { 0xC0 ≤ a }
    requires le_b { 0x80 ≤ b }
    ensures { result ≡ code_two a b }
{
    Decoded::Code((u32::from(a) - 0xC0) * 64 + (u32::from(b) - 0x80), 2)
}

pub fn code_three(a: u8, b: u8, c: u8) -> Decoded
    requires le_a { 0xE0 ≤ a }
    requires le_b { 0x80 ≤ b }
    requires le_c { 0x80 ≤ c }
    ensures { result ≡ code_three a b c }
{
    Decoded::Code(
        (u32::from(a) - 0xE0) * 4096 + (u32::from(b) - 0x80) * 64 + (u32::from(c) - 0x80),
        3,
    )
}

pub fn code_four(a: u8, b: u8, c: u8, d: u8) -> Decoded
    requires le_a { 0xF0 ≤ a }
    requires le_b { 0x80 ≤ b }
    requires le_c { 0x80 ≤ c }
    requires le_d { 0x80 ≤ d }
    ensures { result ≡ code_four a b c d }
{
    Decoded::Code(
        (u32::from(a) - 0xF0) * 262144
            + (u32::from(b) - 0x80) * 4096
            + (u32::from(c) - 0x80) * 64
            + (u32::from(d) - 0x80),
        4,
    )
}

// The character at a place of a text that is UTF-8 from there on: its first byte tells how many there are, and none is checked.
pub fn decode_valid(text: &[u8], at: usize) -> Decoded
    requires { is_valid (bad_from text.now at) ≡ true }
    ensures { result ≡ decode_at text.now at }
{
    if text.len() <= at {
        return Decoded::End;
    }
    let a = text[at];
    if a <= 0x7F {
        return Decoded::Code(u32::from(a), 1);
    }
    if a <= 0xDF {
        return code_two(a, text[at + 1]);
    }
    if a <= 0xEF {
        return code_three(a, text[at + 1], text[at + 2]);
    }
    code_four(a, text[at + 1], text[at + 2], text[at + 3])
}
