// Reading tokens by their kinds: consume and match. A kind is as wide as the host's numbers.
ghost use Rattle.std.specs.Prelude.{◌≡◌};
ghost use Rattle.record_reading.specs.Reading.{consume_at, match_at};
ghost use Rattle.host_answers.specs.Answers.{number_of, slots_after};
ghost use Rattle.host_matching.specs.Matching.{consumed_values, matched_values};

use host_matching::{CONSUMED_SLOTS, MATCHED_SLOTS};

// The token record at a place, and whether it is of the kind asked for. It moves on either way.
#[unsafe(no_mangle)]
pub extern "C" fn aura_consume(
    tokens: &[u8],
    place: usize,
    kind: u64,
    answer: &mut [u64; CONSUMED_SLOTS],
) -> u64
    ensures value { result ≡ number_of (consume_at tokens.now place kind).answer }
    ensures answer_after { answer.new ≡ slots_after (consumed_values (consume_at tokens.now place kind).place) (consume_at tokens.now place kind).answer answer.old }
{
    host_matching::consume(tokens, place, kind, answer)
}

// Whether the token record at a place is of the kind asked for. It moves on only then.
#[unsafe(no_mangle)]
pub extern "C" fn aura_match_kind(
    tokens: &[u8],
    place: usize,
    kind: u64,
    answer: &mut [u64; MATCHED_SLOTS],
) -> u64
    ensures value { result ≡ number_of (match_at tokens.now place kind).answer }
    ensures answer_after { answer.new ≡ slots_after (matched_values (match_at tokens.now place kind).place) (match_at tokens.now place kind).answer answer.old }
{
    host_matching::match_kind(tokens, place, kind, answer)
}
