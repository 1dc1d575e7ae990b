// Fields of a line, each after a space.
#![tactic(auto)]

ghost use Rattle.std.specs.Prelude.{◌≡◌, [], ◌∷◌, ◌/◌, ◌%◌, ◌≤◌, ◌<◌, length};
ghost use Rattle.std.specs.Char.{digit_char};
ghost use Rattle.output.specs.Writing.{Put, PLACES};
ghost use Rattle.listing_fields.specs.Numbers.{SIXTEEN, hex_of};
ghost use Rattle.listing_fields.specs.Fields.{field, span_fields, text_field};
ghost use Rattle.listing_fields.specs.Room.{Room};

use spans::Span;

// The base of the bytes of a text, and the most digits of a number of 64 bits.
const SIXTEEN: u8 = 16;

const DIGITS: usize = 20;

// A number in decimal.
pub fn put_field(x: u64, buf: &mut [u8], at: usize) -> usize
    requires { Room at (field x) }
    ensures { Put buf.old buf.new at (field x) result }
{
    let mut digits = [0u8; DIGITS];
    let n = io::decimal(x, &mut digits);
    let p = output::put_byte(buf, at, b' ');
    output::put_bytes(&digits[..n], buf, p)
}

// The six fields of a span. The library has no `From` from a `usize` to a `u64`.
pub fn put_span(s: Span, buf: &mut [u8], at: usize) -> usize
    requires { Room at (span_fields s) }
    ensures { Put buf.old buf.new at (span_fields s) result }
{
    let a = put_field(s.start as u64, buf, at);
    let b = put_field(s.end as u64, buf, a);
    let c = put_field(s.start_line as u64, buf, b);
    let d = put_field(s.start_col as u64, buf, c);
    let e = put_field(s.end_line as u64, buf, d);
    put_field(s.end_col as u64, buf, e)
}

// A byte as two hexadecimal digits. A function for this place and `put_unicode` of the print would be no more than these two writes.
fn put_hex_byte(b: u8, buf: &mut [u8], at: usize) -> usize
    requires { at < PLACES }
    ensures { Put buf.old buf.new at (digit_char (b / SIXTEEN) ∷ digit_char (b % SIXTEEN) ∷ []) result }
{
    let p = output::put_byte(buf, at, output::hex_digit(b / SIXTEEN));
    output::put_byte(buf, p, output::hex_digit(b % SIXTEEN))
}

// Bytes in hexadecimal.
fn put_hex(text: &[u8], buf: &mut [u8], at: usize) -> usize
    requires { Room at (hex_of text.now) }
    ensures { Put buf.old buf.new at (hex_of text.now) result }
{
    let mut p = at;
    for &b in text {
        p = put_hex_byte(b, buf, p);
    }
    p
}

// A text in hexadecimal, or - where it is empty.
pub fn put_text(text: &[u8], buf: &mut [u8], at: usize) -> usize
    requires { Room at (text_field text.now) }
    ensures { Put buf.old buf.new at (text_field text.now) result }
{
    if text.is_empty() {
        return output::put_bytes(b" -", buf, at);
    }
    let p = output::put_byte(buf, at, b' ');
    put_hex(text, buf, p)
}
