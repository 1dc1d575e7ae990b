// The host's calls on scripts: measuring and tokenising.
#![tactic(auto)]

ghost use Rattle.std.specs.Prelude.{◌≡◌, drop};
ghost use Rattle.lexer.specs.Tokenize.{measure_answer};
ghost use Rattle.host_answers.specs.Answers.{number_of, slots_after};
ghost use Rattle.host_calls.specs.Calls.{used_values, HostTokenized};

use host_answers::{put_answer, truth_of};
use room::Used;

// The slots of an answer.
pub const USED_SLOTS: usize = 6;

// What was used, behind the figure's slot.
fn used_slots(u: Used) -> [u64; USED_SLOTS]
    ensures { drop 1 result ≡ used_values u }
{
    [
        0,
        u.tokens as u64,
        u.texts as u64,
        u.errors as u64,
        u.count as u64,
        truth_of(u.closed),
    ]
}

// What tokenising a script would answer. It writes no buffer.
pub fn measure(script: &[u8], answer: &mut [u64; USED_SLOTS]) -> u64
    ensures answer_after { answer.new ≡ slots_after used_values (measure_answer script.now) answer.old }
    ensures value { result ≡ number_of (measure_answer script.now) }
{
    put_answer(lexer::measure(script).map(used_slots), answer)
}

// Tokenises a script into three lent buffers. It has the shape of `text_check` of host_reading: a call, and its answer put into slots, which is
// `put_answer` for both.
pub fn tokenize(
    script: &[u8],
    tokens: &mut [u8],
    texts: &mut [u8],
    errors: &mut [u8],
    answer: &mut [u64; USED_SLOTS],
) -> u64
    ensures { HostTokenized script.now tokens.old texts.old errors.old answer.old result tokens.new texts.new errors.new answer.new }
{
    let used = lexer::tokenize(script, tokens, texts, errors);
    put_answer(used.map(used_slots), answer)
}
