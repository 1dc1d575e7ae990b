// Escapes: the value of four hexadecimal digits, and the characters that letters behind a backslash stand for.
#![tactic(auto)]

ghost use Rattle.std.specs.Prelude.{◌≡◌, ◌≤◌, length, get_or};
ghost use Rattle.characters.specs.Utf8.{chars_at};
ghost use Rattle.rules.specs.Tables.{ESCAPES, lookup};
ghost use Rattle.rules.specs.Strings.{hex_code};
ghost use Rattle.rules.specs.Script.{LIMIT};
ghost use Rattle.bridge.specs.Bridge.{value_of};
ghost use Rattle.escapes.specs.Escapes.{digit_of, short_escape};

use characters::utf8;

const RADIX: u32 = 16;

// Characters that no byte literal of Rattle has an escape for.
const BACKSPACE: u8 = 0x08;

const VERTICAL_TAB: u8 = 0x0B;

const FORM_FEED: u8 = 0x0C;

// The value of a hexadecimal digit.
fn hex_value(b: u8) -> Option<u32>
    ensures { result ≡ digit_of b }
{
    char::from(b).to_digit(RADIX)
}

// The value of the hexadecimal digit at a place.
fn hex_at(text: &[u8], at: usize) -> Option<u32>
    ensures { result ≡ digit_of (get_or text.now at 0) }
{
    let b = utf8::byte_at(text, at);
    hex_value(b)
}

// The value of the four hexadecimal digits at a place.
#[tactic(auto, using(crate::proofs::Digits::digit_small))]
pub fn four_digits(text: &[u8], at: usize) -> Option<u32>
    requires { at ≤ LIMIT }
    ensures { result ≡ value_of (hex_code 4 0 (chars_at text.now at)) }
{
    let a = hex_at(text, at)?;
    let b = hex_at(text, at + 1)?;
    let c = hex_at(text, at + 2)?;
    let d = hex_at(text, at + 3)?;
    Some(((a * RADIX + b) * RADIX + c) * RADIX + d)
}

// The byte that a letter behind a backslash stands for.
fn letter_byte(e: u8) -> Option<u8>
    ensures { result ≡ value_of (lookup e ESCAPES) }
{
    match e {
        b'n' => Some(b'\n'),
        b't' => Some(b'\t'),
        b'r' => Some(b'\r'),
        b'\\' => Some(b'\\'),
        b'\'' => Some(b'\''),
        b'"' => Some(b'"'),
        b'0' => Some(b'\0'),
        b'b' => Some(BACKSPACE),
        b'f' => Some(FORM_FEED),
        b'v' => Some(VERTICAL_TAB),
        b'/' => Some(b'/'),
        _ => None,
    }
}

// The character that a letter behind a backslash stands for.
#[tactic(auto, using(crate::proofs::Letters::letter_high))]
pub fn escaped(e: u32) -> Option<u32>
    ensures { result ≡ value_of (lookup e ESCAPES) }
{
    let b = letter_byte(u8::try_from(e).ok()?)?;
    Some(u32::from(b))
}

// The byte that the backslash and the letter at a place stand for.
pub fn short_escape(text: &[u8], at: usize) -> Option<u8>
    requires { at ≤ LIMIT }
    ensures { result ≡ short_escape text.now at }
{
    if utf8::byte_at(text, at) == b'\\' {
        return letter_byte(utf8::byte_at(text, at + 1));
    }
    None
}
