// The host's calls that read tokens by their kinds: consume and match. A kind is as wide as the host's numbers.
#![tactic(auto)]

ghost use Rattle.std.specs.Prelude.{◌≡◌, true, false, drop, MatchResult};
ghost use Rattle.records.specs.Kinds.{is_kind};
ghost use Rattle.records.specs.Answers.{of_turn, of_consumed};
ghost use Rattle.record_reading.specs.Reading.{consume_at, match_at};
ghost use Rattle.host_answers.specs.Answers.{number_of, slots_after};
ghost use Rattle.host_matching.specs.Matching.{consumed_values, matched_values};

use host_answers::{put_answer, truth_of};
use host_reading::span_slots;
use records::answers::TokenRecord;
use refusals::Refusal;

// The slots of an answer: for consume, for match.
pub const CONSUMED_SLOTS: usize = 12;

pub const MATCHED_SLOTS: usize = 3;

// The kind as a byte. Question 6 refuses what is none; of a byte the reader asks it.
fn byte_of(kind: u64) -> Result<u8, Refusal>
    ensures { MatchResult result (λ byte. byte ≡ kind) (λ x. (x ≡ Refusal.Kind kind) × (is_kind kind ≡ false)) }
{
    let Ok(byte) = u8::try_from(kind) else {
        return Err(Refusal::Kind(kind));
    };
    Ok(byte)
}

// A token's record, whether it is of the kind asked for, and the place behind it, behind the figure's slot.
fn consumed_slots(consumed: (TokenRecord, bool, usize)) -> [u64; CONSUMED_SLOTS]
    ensures { drop 1 result ≡ consumed_values consumed.2 (consumed.0, consumed.1) }
{
    let (r, fits, at) = consumed;
    let [start, end, start_line, start_col, end_line, end_col] = span_slots(r.span);
    let found = u64::from(r.kind);
    [
        0,
        at as u64,
        found,
        start,
        end,
        start_line,
        start_col,
        end_line,
        end_col,
        r.offset as u64,
        r.length as u64,
        truth_of(fits),
    ]
}

// What consuming answers for a kind as wide as the host's numbers.
fn consumed(tokens: &[u8], place: usize, kind: u64) -> Result<(TokenRecord, bool, usize), Refusal>
    ensures { of_consumed place result ≡ consume_at tokens.now place kind }
{
    let byte = byte_of(kind)?;
    record_reading::read::consume(tokens, place, byte)
}

// The token record at a place, and whether it is of the kind asked for. It moves on either way.
pub fn consume(tokens: &[u8], place: usize, kind: u64, answer: &mut [u64; CONSUMED_SLOTS]) -> u64
    ensures answer_after { answer.new ≡ slots_after (consumed_values (consume_at tokens.now place kind).place) (consume_at tokens.now place kind).answer answer.old }
    ensures value { result ≡ number_of (consume_at tokens.now place kind).answer }
{
    put_answer(consumed(tokens, place, kind).map(consumed_slots), answer)
}

// Whether a record is of the kind asked for, and the place where a reader then stands, behind the figure's slot.
fn matched_slots(matched: (bool, usize)) -> [u64; MATCHED_SLOTS]
    ensures { drop 1 result ≡ matched_values matched.1 matched.0 }
{
    let (fits, at) = matched;
    [0, at as u64, truth_of(fits)]
}

// What matching answers for a kind as wide as the host's numbers. With what consuming answers in one function, the reader's
// question would be a closure, and neither shorter.
fn matched(tokens: &[u8], place: usize, kind: u64) -> Result<(bool, usize), Refusal>
    ensures { of_turn place result ≡ match_at tokens.now place kind }
{
    let byte = byte_of(kind)?;
    record_reading::read::match_kind(tokens, place, byte)
}

// Whether the token record at a place is of the kind asked for. It moves on only then.
pub fn match_kind(tokens: &[u8], place: usize, kind: u64, answer: &mut [u64; MATCHED_SLOTS]) -> u64
    ensures answer_after { answer.new ≡ slots_after (matched_values (match_at tokens.now place kind).place) (match_at tokens.now place kind).answer answer.old }
    ensures value { result ≡ number_of (match_at tokens.now place kind).answer }
{
    put_answer(matched(tokens, place, kind).map(matched_slots), answer)
}
