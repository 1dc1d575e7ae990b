// Numbers: where each part of one ends.
#![tactic(auto)]

ghost use Rattle.std.specs.Prelude.{◌≡◌, true, [], ◌∷◌, ◌≤◌, ◌-◌, length};
ghost use Rattle.characters.specs.Utf8.{chars_at};
ghost use Rattle.rules.specs.Text.{one_of, is_digit};
ghost use Rattle.rules.specs.Scan.{one_char, next};
ghost use Rattle.rules.specs.Numbers.{fraction, exponent, maybe_suffix, zero_then, decimal, parse_number};
ghost use Rattle.bridge.specs.Bridge.{Cut, Letter};
ghost use Rattle.lexemes.specs.Words.{WordAt};
ghost use Rattle.numbers.specs.Numbers.{is_suffix, is_sign, number_kind};

use digits::{is_digit, past_binary, past_digits, past_grouped, past_hex};
use lexemes::Word;
use rules::kinds;

// The end of a number, and whether it is a float. The end counts either way, so that two cases of an enum would say it twice.
#[derive(Clone, Copy)]
pub struct Numeral {
    pub end: usize,
    pub float: bool,
}

fn is_suffix(b: u8) -> bool
    ensures { result ≡ is_suffix b }
{
    matches!(b, b'L' | b'l' | b'f' | b'F' | b'd' | b'D' | b'u' | b'U')
}

// Past one suffix letter.
fn past_suffix(text: &[u8], at: usize) -> usize
    requires { at ≤ length text.now }
    ensures { Cut text.now at (maybe_suffix (chars_at text.now at)) result }
{
    if is_suffix(characters::utf8::byte_at(text, at)) {
        return at + 1;
    }
    at
}

// Whether a or b stands at a place.
fn either_at(text: &[u8], at: usize, a: u8, b: u8) -> bool
    requires letter { Letter a }
    requires letter_2 { Letter b }
    ensures { result ≡ next (one_of (a ∷ b ∷ [])) (chars_at text.now at) }
{
    let c = characters::utf8::byte_at(text, at);
    (c == a) | (c == b)
}

// Past a point and its digits, where a digit follows the point.
fn past_fraction(text: &[u8], at: usize) -> usize
    requires { at ≤ length text.now }
    ensures { Cut text.now at (fraction (chars_at text.now at)) result }
{
    if !bridge::is_at(text, at, b'.') {
        return at;
    }
    let next = at + 1;
    if !is_digit(characters::utf8::byte_at(text, next)) {
        return at;
    }
    past_grouped(text, next)
}

// Past a sign.
fn past_sign(text: &[u8], at: usize) -> usize
    requires { at ≤ length text.now }
    ensures { Cut text.now at (one_char is_sign (chars_at text.now at)) result }
{
    if either_at(text, at, b'+', b'-') {
        return at + 1;
    }
    at
}

// Past an exponent.
fn past_exponent(text: &[u8], at: usize) -> usize
    requires { at ≤ length text.now }
    ensures { Cut text.now at (exponent (chars_at text.now at)) result }
{
    if !either_at(text, at, b'e', b'E') {
        return at;
    }
    let sign = past_sign(text, at + 1);
    past_digits(text, sign)
}

// The number at a place that has no prefix.
fn decimal_at(text: &[u8], at: usize) -> Numeral
    requires at_in_bounds { at ≤ length text.now }
    requires at_value { next is_digit (chars_at text.now at) ≡ true }
    ensures { WordAt text.now at (decimal (chars_at text.now at)) (number_kind result.float) (result.end - at) (result.end - at) }
{
    let whole = past_grouped(text, at);
    let point = past_fraction(text, whole);
    let power = past_exponent(text, point);
    let end = past_suffix(text, power);
    Numeral {
        end,
        float: whole < power,
    }
}

// Whether a zero and then a or b stand at a place.
fn zero_then(text: &[u8], at: usize, a: u8, b: u8) -> bool
    requires at_in_bounds { at ≤ length text.now }
    requires letter { Letter a }
    requires letter_2 { Letter b }
    ensures { result ≡ zero_then (a ∷ b ∷ []) (chars_at text.now at) }
{
    bridge::is_at(text, at, b'0') && either_at(text, at + 1, a, b)
}

// The number at a place where a digit stands.
pub fn number_at(text: &[u8], at: usize) -> Numeral
    requires at_in_bounds { at ≤ length text.now }
    requires at_value { next is_digit (chars_at text.now at) ≡ true }
    ensures { WordAt text.now at (parse_number (chars_at text.now at)) (number_kind result.float) (result.end - at) (result.end - at) }
{
    if zero_then(text, at, b'x', b'X') {
        let digits = past_hex(text, at + 2);
        let end = past_suffix(text, digits);
        return Numeral { end, float: false };
    }
    if zero_then(text, at, b'b', b'B') {
        let digits = past_binary(text, at + 2);
        let end = past_suffix(text, digits);
        return Numeral { end, float: false };
    }
    decimal_at(text, at)
}

// The number at a place, as a word.
pub fn numeral_at(text: &[u8], at: usize) -> Word
    requires at_in_bounds { at ≤ length text.now }
    requires at_value { next is_digit (chars_at text.now at) ≡ true }
    ensures { WordAt text.now at (parse_number (chars_at text.now at)) result.kind result.length result.extent }
{
    let x = number_at(text, at);
    let n = x.end - at;
    if x.float {
        return Word {
            kind: kinds::FLOAT_LITERAL,
            length: n,
            extent: n,
        };
    }
    Word {
        kind: kinds::INT_LITERAL,
        length: n,
        extent: n,
    }
}
