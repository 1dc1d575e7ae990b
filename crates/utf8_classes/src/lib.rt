// The class of a bad sequence (document 02, order 1).
#![tactic(auto)]

ghost use Rattle.std.specs.Prelude.{◌≡◌, drop};
ghost use Rattle.characters.specs.Utf8.{is_cut, has_own_range, is_barred, bad_class};
ghost use Rattle.refusals.specs.Refusals.{refusal_number, refusal_figure};

use characters::utf8;
use refusals::Refusal;

// Whether the text ends before its first sequence does, and each byte is allowed in its place.
fn is_cut(text: &[u8]) -> bool
    ensures { result ≡ is_cut text.now }
{
    if text.len() == 1 {
        return utf8::within(0xC2, 0xF4, text[0]);
    }
    if text.len() == 2 {
        return utf8::within(0xE0, 0xF4, text[0]) & sequences::second_ok(text[0], text[1]);
    }
    if text.len() == 3 {
        return utf8::within(0xF0, 0xF4, text[0])
            & sequences::second_ok(text[0], text[1])
            & utf8::is_tail(text[2]);
    }
    false
}

// Whether the second byte has a range of its own behind this first one. By `matches!` it would take two answers more.
fn has_own_range(a: u8) -> bool
    ensures { result ≡ has_own_range a }
{
    (a == 0xE0) | (a == 0xED) | (a == 0xF0) | (a == 0xF4)
}

// Whether the text begins with such a byte and, behind it, with a tail that lies outside its range.
fn is_barred(text: &[u8]) -> bool
    ensures { result ≡ is_barred text.now }
{
    if text.len() < 2 {
        return false;
    }
    has_own_range(text[0]) & utf8::is_tail(text[1]) & !sequences::second_ok(text[0], text[1])
}

// The refusal of a text with a bad sequence at a place: by the class of the sequence.
pub fn bad_class(text: &[u8], at: usize) -> Refusal
    ensures number { refusal_number result ≡ bad_class (drop at text.now) }
    ensures figure { refusal_figure result ≡ at }
{
    let place = at as u64;
    if text.len() <= at {
        return Refusal::Utf8(place);
    }
    let rest = &text[at..];
    if is_cut(rest) {
        return Refusal::Cut(place);
    }
    if is_barred(rest) {
        return Refusal::Barred(place);
    }
    Refusal::Utf8(place)
}
