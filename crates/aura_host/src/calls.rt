// Measuring and tokenising.
ghost use Rattle.std.specs.Prelude.{◌≡◌};
ghost use Rattle.lexer.specs.Tokenize.{measure_answer};
ghost use Rattle.host_answers.specs.Answers.{number_of, slots_after};
ghost use Rattle.host_calls.specs.Calls.{used_values, HostTokenized};

use host_calls::USED_SLOTS;

// What tokenising a script would answer. It writes no buffer.
#[unsafe(no_mangle)]
pub extern "C" fn aura_measure(script: &[u8], answer: &mut [u64; USED_SLOTS]) -> u64
    ensures value { result ≡ number_of (measure_answer script.now) }
    ensures answer_after { answer.new ≡ slots_after used_values (measure_answer script.now) answer.old }
{
    host_calls::measure(script, answer)
}

// Tokenises a script into three lent buffers.
#[unsafe(no_mangle)]
pub extern "C" fn aura_tokenize(
    script: &[u8],
    tokens: &mut [u8],
    texts: &mut [u8],
    errors: &mut [u8],
    answer: &mut [u64; USED_SLOTS],
) -> u64
    ensures { HostTokenized script.now tokens.old texts.old errors.old answer.old result tokens.new texts.new errors.new answer.new }
{
    host_calls::tokenize(script, tokens, texts, errors, answer)
}
