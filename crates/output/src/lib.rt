// Bytes, characters and records written into lent buffers, with no room asked: what does not fit is passed over and counted.
#![tactic(auto)]

ghost use Rattle.std.specs.Prelude.{◌≡◌, [], ◌∷◌, ◌≤◌, ◌<◌, length};
ghost use Rattle.std.specs.Char.{digit_char};
ghost use Rattle.std.proofs.Math.Seq.{slice};
ghost use Rattle.characters.specs.Utf8.{encode_char};
ghost use Rattle.records.specs.Records.{token_record, error_record};
ghost use Rattle.records.specs.Errors.{error_of};
ghost use Rattle.records.specs.Layout.{error_record_of};
ghost use Rattle.output.specs.Writing.{Put, PLACES, HEX};

use records::answers::{ErrorRecord, TokenRecord};
use records::{fields, kinds};
use spans::Span;

// The first number that is no decimal digit.
const TEN: u8 = 10;

// One byte. A buffer and the place in it are two parameters: as a struct with methods they prove too, but where a method is not inlined
// the place goes through memory, and a write takes twice the instructions.
pub fn put_byte(buf: &mut [u8], at: usize, b: u8) -> usize
    requires { at ≤ PLACES }
    ensures { Put buf.old buf.new at (b ∷ []) result }
{
    if at < buf.len() {
        buf[at] = b;
        return at + 1;
    }
    at + 1
}

// The bytes of a part. They are copied by a loop, since the library's `copy_from_slice` would take `memmove` from the host.
pub fn put_bytes(part: &[u8], buf: &mut [u8], at: usize) -> usize
    requires part_bound { length part.now ≤ PLACES }
    requires at_bound { at ≤ PLACES }
    ensures { Put buf.old buf.new at part.now result }
{
    let end = at + part.len();
    if buf.len() <= at {
        return end;
    }
    let n = part.len().min(buf.len() - at);
    for i in 0..n {
        buf[at + i] = part[i];
    }
    end
}

// A hexadecimal digit, with small letters. The library's `from_digit` answers a `char` or none, which would be made a byte again.
pub fn hex_digit(d: u8) -> u8
    requires { d < HEX }
    ensures { result ≡ digit_char d }
{
    if d < TEN { b'0' + d } else { b'a' + (d - TEN) }
}

// A character as UTF-8. This and the two below have one shape: a trait of what is written, with its bytes and three impls, would be longer
// than the three bodies.
pub fn put_char(c: u32, buf: &mut [u8], at: usize) -> usize
    requires c_bound { c ≤ 0x10FFFF }
    requires at_bound { at ≤ PLACES }
    ensures { Put buf.old buf.new at (encode_char c) result }
{
    let n = encoding::width_of(c);
    if at + n <= buf.len() {
        return encoding::put_char(buf, at, c);
    }
    if buf.len() <= at {
        return at + n;
    }
    let mut bytes = [0u8; 4];
    encoding::put_char(&mut bytes, 0, c);
    put_bytes(&bytes[..n], buf, at)
}

// A token's record.
pub fn put_token(buf: &mut [u8], at: usize, r: TokenRecord) -> usize
    requires { at ≤ PLACES }
    ensures { Put buf.old buf.new at (token_record r.kind r.span r.offset r.length) result }
{
    let n = kinds::record_length(r.kind);
    if at + n <= buf.len() {
        return record_writing::put_token(buf, at, r);
    }
    if buf.len() <= at {
        return at + n;
    }
    let mut bytes = [0u8; fields::WITH_TEXT];
    record_writing::put_token(&mut bytes, 0, r);
    put_bytes(&bytes[..n], buf, at)
}

// An error's record, by the number of its kind.
pub fn put_error(buf: &mut [u8], at: usize, kind: u8, span: Span, code: u32) -> usize
    requires { at ≤ PLACES }
    ensures { Put buf.old buf.new at (error_record kind span code) result }
{
    let n = kinds::error_length(kind);
    if at + n <= buf.len() {
        return record_writing::put_error(buf, at, kind, span, code);
    }
    if buf.len() <= at {
        return at + n;
    }
    let mut bytes = [0u8; fields::WITH_CODE];
    record_writing::put_error(&mut bytes, 0, kind, span, code);
    put_bytes(&bytes[..n], buf, at)
}

// An error's record, by its kind with its code point.
pub fn put_error_record(buf: &mut [u8], at: usize, e: ErrorRecord) -> usize
    requires { at ≤ PLACES }
    ensures { Put buf.old buf.new at (error_record_of (error_of e)) result }
{
    let code = e.kind.code().unwrap_or(0);
    put_error(buf, at, e.kind.number(), e.span, code)
}
