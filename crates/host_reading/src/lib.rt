// The host's calls that read records back: the next token, the next error, the text check.
#![tactic(auto)]

ghost use Rattle.std.specs.Prelude.{◌≡◌, drop};
ghost use Rattle.record_reading.specs.Reading.{next_at, next_error_at};
ghost use Rattle.record_texts.specs.Texts.{text_check_at};
ghost use Rattle.host_answers.specs.Answers.{number_of, slots_after};
ghost use Rattle.host_reading.specs.Records.{span_values, token_values, error_values, no_values};

use host_answers::put_answer;
use records::answers::{ErrorRecord, TokenRecord};
use spans::Span;

// The slots of an answer: for a token, an error, a check.
pub const TOKEN_SLOTS: usize = 11;

pub const ERROR_SLOTS: usize = 10;

pub const CHECK_SLOTS: usize = 1;

// The six fields of a span.
#[tactic(auto, unfolding(crate::specs::Records::span_values))]
pub fn span_slots(s: Span) -> [u64; 6]
    ensures { result ≡ span_values s }
{
    [
        s.start as u64,
        s.end as u64,
        s.start_line as u64,
        s.start_col as u64,
        s.end_line as u64,
        s.end_col as u64,
    ]
}

// A token's record and the place behind it, behind the figure's slot.
fn token_slots(next: (TokenRecord, usize)) -> [u64; TOKEN_SLOTS]
    ensures { drop 1 result ≡ token_values next.1 next.0 }
{
    let (r, at) = next;
    let [start, end, start_line, start_col, end_line, end_col] = span_slots(r.span);
    let kind = u64::from(r.kind);
    [
        0,
        at as u64,
        kind,
        start,
        end,
        start_line,
        start_col,
        end_line,
        end_col,
        r.offset as u64,
        r.length as u64,
    ]
}

// The token record at a place of the token buffer.
pub fn next_token(tokens: &[u8], place: usize, answer: &mut [u64; TOKEN_SLOTS]) -> u64
    ensures answer_after { answer.new ≡ slots_after (token_values (next_at tokens.now place).place) (next_at tokens.now place).answer answer.old }
    ensures value { result ≡ number_of (next_at tokens.now place).answer }
{
    let next = record_reading::read::next_token(tokens, place);
    put_answer(next.map(token_slots), answer)
}

// An error's record and the place behind it, behind the figure's slot.
fn error_slots(next: (ErrorRecord, usize)) -> [u64; ERROR_SLOTS]
    ensures { drop 1 result ≡ error_values next.1 next.0 }
{
    let (r, at) = next;
    let [start, end, start_line, start_col, end_line, end_col] = span_slots(r.span);
    let kind = u64::from(r.kind.number());
    let code = u64::from(r.kind.code().unwrap_or(0));
    [
        0, at as u64, kind, start, end, start_line, start_col, end_line, end_col, code,
    ]
}

// The error record at a place of the error buffer.
pub fn next_error(errors: &[u8], place: usize, answer: &mut [u64; ERROR_SLOTS]) -> u64
    ensures answer_after { answer.new ≡ slots_after (error_values (next_error_at errors.now place).place) (next_error_at errors.now place).answer answer.old }
    ensures value { result ≡ number_of (next_error_at errors.now place).answer }
{
    let next = record_reading::errors::next_error(errors, place);
    put_answer(next.map(error_slots), answer)
}

// There are no values behind the figure's slot.
fn no_slots(yes: ()) -> [u64; CHECK_SLOTS]
    ensures { drop 1 result ≡ no_values yes }
{
    [0]
}

// Whether the text of the token record at a place lies inside its buffer.
pub fn text_check<'a>(
    script: &'a [u8],
    texts: &'a [u8],
    tokens: &[u8],
    place: usize,
    answer: &mut [u64; CHECK_SLOTS],
) -> u64
    ensures answer_after { answer.new ≡ slots_after no_values (text_check_at script.now texts.now tokens.now place) answer.old }
    ensures value { result ≡ number_of (text_check_at script.now texts.now tokens.now place) }
{
    let check = record_texts::text_check(script, texts, tokens, place);
    put_answer(check.map(no_slots), answer)
}
