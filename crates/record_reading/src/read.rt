// Reading records back at a place of a lent slice: next, consume, match, and a next over error records.
ghost use Rattle.std.specs.Prelude.{◌≡◌, true, false, ◌+◌, ◌≤◌, ◌<◌, length, MatchResult};
ghost use Rattle.records.specs.Fields.{SPAN, WORD};
ghost use Rattle.records.specs.Kinds.{is_kind};
ghost use Rattle.records.specs.Answers.{of_turn, of_consumed};
ghost use Rattle.record_reading.specs.Reading.{num32, span_at, kind_at, is_whole, record_at, after_at, next_at, consume_at, match_at};

use records::answers::TokenRecord;
use records::{fields, kinds};
use refusals::Refusal;
use spans::Span;

// The 32-bit little-endian number at a place. That it lies in the slice is asked: a slice of four bytes would have to be cut out first. The
// library has no `From` from a `u32` to a `usize`.
pub fn get32(s: &[u8], at: usize) -> usize
    requires { at + 4 ≤ length s.now }
    ensures { (result ≡ num32 s.now at) × (result < WORD) }
{
    u32::from_le_bytes([s[at], s[at + 1], s[at + 2], s[at + 3]]) as usize
}

// The span at a place.
pub fn get_span(s: &[u8], at: usize) -> Span
    requires { at + SPAN ≤ length s.now }
    ensures { result ≡ span_at s.now at }
{
    let start = get32(s, at);
    let end = get32(s, at + fields::END);
    let start_line = get32(s, at + fields::START_LINE);
    let start_col = get32(s, at + fields::START_COL);
    let end_line = get32(s, at + fields::END_LINE);
    let end_col = get32(s, at + fields::END_COL);
    Span {
        start,
        end,
        start_line,
        start_col,
        end_line,
        end_col,
    }
}

// Whether a whole record of a known kind starts at a place.
pub fn is_whole(s: &[u8], at: usize) -> bool
    ensures { result ≡ is_whole s.now at }
{
    if s.len() <= at {
        return false;
    }
    let kind = s[at];
    if !kinds::is_kind(kind) {
        return false;
    }
    kinds::record_length(kind) <= s.len() - at
}

// The record that starts at a place. That a whole one does is what question 7 has told of this place, so it is asked, here and below.
pub fn record_at(s: &[u8], at: usize) -> TokenRecord
    requires { is_whole s.now at ≡ true }
    ensures { result ≡ record_at s.now at }
{
    let kind = s[at];
    let span = get_span(s, at + 1);
    if kinds::has_text(kind) {
        let offset = get32(s, at + fields::TEXT_OFFSET);
        let length = get32(s, at + fields::TEXT_LENGTH);
        return TokenRecord {
            kind,
            span,
            offset,
            length,
        };
    }
    TokenRecord {
        kind,
        span,
        offset: 0,
        length: 0,
    }
}

// The place after that record. EOF is not left.
fn after(s: &[u8], at: usize) -> usize
    requires { is_whole s.now at ≡ true }
    ensures { result ≡ after_at s.now at }
{
    let kind = s[at];
    if kind == rules::kinds::EOF {
        at
    } else {
        at + kinds::record_length(kind)
    }
}

// Question 6: whether there is such a kind of token.
fn ask_kind(kind: u8) -> Result<(), Refusal>
    ensures { MatchResult result (λ _. is_kind kind ≡ true) (λ x. (x ≡ Refusal.Kind kind) × (is_kind kind ≡ false)) }
{
    if kinds::is_kind(kind) {
        Ok(())
    } else {
        Err(Refusal::Kind(u64::from(kind)))
    }
}

// Question 7: whether a whole record of a known kind starts at a place.
pub fn ask_record(s: &[u8], at: usize) -> Result<(), Refusal>
    ensures { MatchResult result (λ _. is_whole s.now at ≡ true) (λ x. (x ≡ Refusal.Place at) × (is_whole s.now at ≡ false)) }
{
    if is_whole(s, at) {
        Ok(())
    } else {
        Err(Refusal::Place(at as u64))
    }
}

// The record at a place and the place where a reader then stands, or the refusal 7.
pub fn next_token(s: &[u8], at: usize) -> Result<(TokenRecord, usize), Refusal>
    ensures { of_turn at result ≡ next_at s.now at }
{
    ask_record(s, at)?;
    Ok((record_at(s, at), after(s, at)))
}

// The record at a place, whether it is of the kind asked for, and the place where a reader then stands, or the refusals 6 and 7. It moves
// on either way.
pub fn consume(s: &[u8], at: usize, kind: u8) -> Result<(TokenRecord, bool, usize), Refusal>
    ensures { of_consumed at result ≡ consume_at s.now at kind }
{
    ask_kind(kind)?;
    let (r, place) = next_token(s, at)?;
    Ok((r, r.kind == kind, place))
}

// Whether the record at a place is of the kind asked for, and the place where a reader then stands, or the refusals 6 and 7. It moves on
// only then; the place is part of the answer either way, so it is no Option.
pub fn match_kind(s: &[u8], at: usize, kind: u8) -> Result<(bool, usize), Refusal>
    ensures { of_turn at result ≡ match_at s.now at kind }
{
    ask_kind(kind)?;
    ask_record(s, at)?;
    if s[at] == kind {
        Ok((true, after(s, at)))
    } else {
        Ok((false, at))
    }
}
