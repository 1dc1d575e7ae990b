// Digits: which characters are such, and where a run of them ends.
#![tactic(auto)]

ghost use Rattle.std.specs.Prelude.{◌≡◌, ◌≤◌, length};
ghost use Rattle.characters.specs.Utf8.{chars_at};
ghost use Rattle.rules.specs.Text.{is_digit};
ghost use Rattle.rules.specs.Scan.{run};
ghost use Rattle.rules.specs.Numbers.{hex_part, binary_part, is_digit_or_underscore};
ghost use Rattle.bridge.specs.Bridge.{Cut};

pub fn is_digit(b: u8) -> bool
    ensures { result ≡ is_digit b }
{
    b.is_ascii_digit()
}

// A digit or an underscore.
fn is_grouped(b: u8) -> bool
    ensures { result ≡ is_digit_or_underscore b }
{
    is_digit(b) | (b == b'_')
}

// A digit after 0x.
fn is_hex_part(b: u8) -> bool
    ensures { result ≡ hex_part b }
{
    b.is_ascii_hexdigit()
}

// A digit after 0b.
fn is_binary_part(b: u8) -> bool
    ensures { result ≡ binary_part b }
{
    (b == b'0') | (b == b'1')
}

// Past digits. This and the three below are calls of one walk, each with its test and its promise.
pub fn past_digits(text: &[u8], from: usize) -> usize
    requires { from ≤ length text.now }
    ensures { Cut text.now from (run is_digit (chars_at text.now from)) result }
{
    runs::past(text, from, is_digit)
}

// Past digits and underscores.
pub fn past_grouped(text: &[u8], from: usize) -> usize
    requires { from ≤ length text.now }
    ensures { Cut text.now from (run is_digit_or_underscore (chars_at text.now from)) result }
{
    runs::past(text, from, is_grouped)
}

// Past the digits after 0x.
pub fn past_hex(text: &[u8], from: usize) -> usize
    requires { from ≤ length text.now }
    ensures { Cut text.now from (run hex_part (chars_at text.now from)) result }
{
    runs::past(text, from, is_hex_part)
}

// Past the digits after 0b.
pub fn past_binary(text: &[u8], from: usize) -> usize
    requires { from ≤ length text.now }
    ensures { Cut text.now from (run binary_part (chars_at text.now from)) result }
{
    runs::past(text, from, is_binary_part)
}
