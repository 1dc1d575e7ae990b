// UTF-8 by RFC 3629: the character that four bytes begin with, and the character at a place of any text.
#![tactic(auto)]

ghost use Rattle.std.specs.Prelude.{◌≡◌, ◌+◌, ◌≤◌, length};
ghost use Rattle.characters.specs.Utf8.{second_ok, two_of, three_of, four_of, sequence, decode_at};

use characters::{Decoded, utf8};

// Whether `b` may follow `a`, the first of three or four bytes.
pub fn second_ok(a: u8, b: u8) -> bool
    ensures { result ≡ second_ok a b }
{
    if a == 0xE0 {
        return utf8::within(0xA0, 0xBF, b);
    }
    if a == 0xED {
        return utf8::within(0x80, 0x9F, b);
    }
    if a == 0xF0 {
        return utf8::within(0x90, 0xBF, b);
    }
    if a == 0xF4 {
        return utf8::within(0x80, 0x8F, b);
    }
    utf8::is_tail(b)
}

// The character of two bytes. This and the next two ask what the RFC's grammar asks of each width: the second byte has a rule of its
// own behind the first of three or four, and one function of all widths would ask for the width before each test.
fn two(a: u8, b: u8) -> Decoded
    requires le_a { 0xC2 ≤ a }
    requires a_bound { a ≤ 0xDF }
    ensures { result ≡ two_of a b }
{
    if utf8::is_tail(b) {
        utf8::code_two(a, b)
    } else {
        Decoded::Bad
    }
}

// The character of three bytes.
fn three(a: u8, b: u8, c: u8) -> Decoded
    requires le_a { 0xE0 ≤ a }
    requires a_bound { a ≤ 0xEF }
    ensures { result ≡ three_of a b c }
{
    if second_ok(a, b) {
        if utf8::is_tail(c) {
            return utf8::code_three(a, b, c);
        }
    }
    Decoded::Bad
}

// The character of four bytes.
fn four(a: u8, b: u8, c: u8, d: u8) -> Decoded
    requires le_a { 0xF0 ≤ a }
    requires a_bound { a ≤ 0xF4 }
    ensures { result ≡ four_of a b c d }
{
    if second_ok(a, b) {
        if utf8::is_tail(c) {
            if utf8::is_tail(d) {
                return utf8::code_four(a, b, c, d);
            }
        }
    }
    Decoded::Bad
}

// The character that four bytes begin with.
pub fn sequence_of(a: u8, b: u8, c: u8, d: u8) -> Decoded
    ensures { result ≡ sequence a b c d }
{
    if a <= 0x7F {
        return Decoded::Code(u32::from(a), 1);
    }
    if a < 0xC2 {
        return Decoded::Bad;
    }
    if a <= 0xDF {
        return two(a, b);
    }
    if a <= 0xEF {
        return three(a, b, c);
    }
    if a <= 0xF4 {
        return four(a, b, c, d);
    }
    Decoded::Bad
}

// The character at a place of a text.
pub fn decode(text: &[u8], at: usize) -> Decoded
    ensures { result ≡ decode_at text.now at }
{
    if text.len() <= at {
        return Decoded::End;
    }
    let a = text[at];
    if a <= 0x7F {
        return Decoded::Code(u32::from(a), 1);
    }
    let b = utf8::byte_at(text, at + 1);
    let c = utf8::byte_at(text, at + 2);
    let d = utf8::byte_at(text, at + 3);
    sequence_of(a, b, c, d)
}

// The character at a place that has four bytes.
pub fn decode_inside(text: &[u8], at: usize) -> Decoded
    requires { at + 4 ≤ length text.now }
    ensures { result ≡ decode_at text.now at }
{
    sequence_of(text[at], text[at + 1], text[at + 2], text[at + 3])
}
