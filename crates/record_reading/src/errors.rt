// Reading error records back.
ghost use Rattle.std.specs.Prelude.{◌≡◌, true};
ghost use Rattle.records.specs.Answers.{of_turn};
ghost use Rattle.record_reading.specs.Reading.{is_whole_error, error_at, next_error_at};

use super::read::{get_span, get32};
use records::answers::ErrorRecord;
use records::errors::ErrorKind;
use records::{fields, kinds};
use refusals::Refusal;

// Whether a whole error record of a known kind starts at a place: `is_whole` with the other kinds. A function of both would take the kinds'
// two functions as closures, and be no shorter.
pub fn is_whole_error(s: &[u8], at: usize) -> bool
    ensures { result ≡ is_whole_error s.now at }
{
    if s.len() <= at {
        return false;
    }
    let kind = s[at];
    if !kinds::is_error_kind(kind) {
        return false;
    }
    kinds::error_length(kind) <= s.len() - at
}

// The error record that starts at a place.
pub fn error_at(s: &[u8], at: usize) -> ErrorRecord
    requires { is_whole_error s.now at ≡ true }
    ensures { result ≡ error_at s.now at }
{
    let number = s[at];
    let span = get_span(s, at + 1);
    if kinds::has_code(number) {
        let code = get32(s, at + fields::CODE_POINT) as u32;
        let kind = ErrorKind::of(number, code);
        return ErrorRecord { kind, span };
    }
    // Of a kind that carries none, no code point matters.
    let kind = ErrorKind::of(number, 0);
    ErrorRecord { kind, span }
}

// The error record at a place and the place where a reader then stands, or the refusal 7. There is no EOF among them.
pub fn next_error(s: &[u8], at: usize) -> Result<(ErrorRecord, usize), Refusal>
    ensures { of_turn at result ≡ next_error_at s.now at }
{
    if !is_whole_error(s, at) {
        return Err(Refusal::Place(at as u64));
    }
    let place = at + kinds::error_length(s[at]);
    Ok((error_at(s, at), place))
}
