// Reading records back: the next token, the next error, the text check.
ghost use Rattle.std.specs.Prelude.{◌≡◌};
ghost use Rattle.record_reading.specs.Reading.{next_at, next_error_at};
ghost use Rattle.record_texts.specs.Texts.{text_check_at};
ghost use Rattle.host_answers.specs.Answers.{number_of, slots_after};
ghost use Rattle.host_reading.specs.Records.{token_values, error_values, no_values};

use host_reading::{CHECK_SLOTS, ERROR_SLOTS, TOKEN_SLOTS};

// The token record at a place of the token buffer.
#[unsafe(no_mangle)]
pub extern "C" fn aura_next_token(
    tokens: &[u8],
    place: usize,
    answer: &mut [u64; TOKEN_SLOTS],
) -> u64
    ensures value { result ≡ number_of (next_at tokens.now place).answer }
    ensures answer_after { answer.new ≡ slots_after (token_values (next_at tokens.now place).place) (next_at tokens.now place).answer answer.old }
{
    host_reading::next_token(tokens, place, answer)
}

// The error record at a place of the error buffer.
#[unsafe(no_mangle)]
pub extern "C" fn aura_next_error(
    errors: &[u8],
    place: usize,
    answer: &mut [u64; ERROR_SLOTS],
) -> u64
    ensures value { result ≡ number_of (next_error_at errors.now place).answer }
    ensures answer_after { answer.new ≡ slots_after (error_values (next_error_at errors.now place).place) (next_error_at errors.now place).answer answer.old }
{
    host_reading::next_error(errors, place, answer)
}

// Whether the text of the token record at a place lies inside its buffer.
#[unsafe(no_mangle)]
pub extern "C" fn aura_text_check<'a>(
    script: &'a [u8],
    texts: &'a [u8],
    tokens: &[u8],
    place: usize,
    answer: &mut [u64; CHECK_SLOTS],
) -> u64
    ensures value { result ≡ number_of (text_check_at script.now texts.now tokens.now place) }
    ensures answer_after { answer.new ≡ slots_after no_values (text_check_at script.now texts.now tokens.now place) answer.old }
{
    host_reading::text_check(script, texts, tokens, place, answer)
}
