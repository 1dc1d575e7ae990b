// A character written as UTF-8 into a lent buffer.
#![tactic(auto)]

ghost use Rattle.std.specs.Prelude.{◌≡◌, [], ◌∷◌, ◌≤◌, ◌+◌, length};
ghost use Rattle.std.proofs.lemmas.List.Edits.{sets};
ghost use Rattle.characters.specs.Utf8.{is_scalar, width, encode_char};
ghost use Rattle.encoding.specs.Encoding.{encoded_at, buffer_after};

// Whether a number is a character.
pub fn is_scalar(c: u32) -> bool
    ensures { result ≡ is_scalar c }
{
    (c <= 0x10FFFF) & !(0xD800..=0xDFFF).contains(&c)
}

// How many bytes a character has.
pub fn width_of(c: u32) -> usize
    ensures { result ≡ width c }
{
    if c <= 0x7F {
        return 1;
    }
    if c <= 0x7FF {
        return 2;
    }
    if c <= 0xFFFF {
        return 3;
    }
    4
}

// Bytes at a place of the buffer.
fn put<const N: usize>(buf: &mut [u8], at: usize, bytes: &[u8; N])
    requires { at + N ≤ length buf.old }
    ensures { buf.new ≡ sets buf.old at bytes.now }
{
    buf[at..at + N].copy_from_slice(bytes);
}

// The character at a place of the buffer, and the place after it. It is a number, since a `char` would ask more: no surrogates.
// What is cut to a byte fits one, which the casts ask to be shown.
pub fn put_char(buf: &mut [u8], at: usize, c: u32) -> usize
    requires c_bound { c ≤ 0x10FFFF }
    requires c_in_bounds { at + width c ≤ length buf.old }
    ensures { (result ≡ at + width c) × (buf.new ≡ sets buf.old at (encode_char c)) }
{
    let z = (0x80 + c % 64) as u8;
    let y = (0x80 + c / 64 % 64) as u8;
    let x = (0x80 + c / 64 / 64 % 64) as u8;
    if c <= 0x7F {
        put(buf, at, &[c as u8]);
        return at + 1;
    }
    if c <= 0x7FF {
        put(buf, at, &[(0xC0 + c / 64) as u8, z]);
        return at + 2;
    }
    if c <= 0xFFFF {
        put(buf, at, &[(0xE0 + c / 64 / 64) as u8, y, z]);
        return at + 3;
    }
    put(buf, at, &[(0xF0 + c / 64 / 64 / 64) as u8, x, y, z]);
    at + 4
}

// A character at a place of a buffer, whatever the number and the place: the number of bytes, or none where it is refused.
pub fn encode_char(c: u32, buf: &mut [u8], at: usize) -> Option<usize>
    ensures value { result ≡ encoded_at c at (length buf.old) }
    ensures buf_after { buf.new ≡ buffer_after c at buf.old }
{
    let size = buf.len();
    let n = width_of(c);
    if !is_scalar(c) {
        return None;
    }
    if size < n {
        return None;
    }
    if size - n < at {
        return None;
    }
    put_char(buf, at, c);
    Some(n)
}
