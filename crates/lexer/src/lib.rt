// Tokenising and measuring a script: questions 1 to 5, and then the records, texts and errors.
#![tactic(auto)]

ghost use Rattle.std.specs.Prelude.{◌≡◌};
ghost use Rattle.refusals.specs.Answers.{of_answer};
ghost use Rattle.lexer.specs.Tokenize.{measure_answer, Tokenized};

use list_loop::{count, run};
use questions::{ask_room, ask_text};
use refusals::Refusal;
use room::{Used, is_roomy};

// What tokenising takes. It writes nothing.
pub fn measure(script: &[u8]) -> Result<Used, Refusal>
    ensures { of_answer result ≡ measure_answer script.now }
{
    let script = ask_text(script)?;
    Ok(count(script))
}

// Tokenises a script into the three buffers.
pub fn tokenize(
    script: &[u8],
    tokens: &mut [u8],
    texts: &mut [u8],
    errors: &mut [u8],
) -> Result<Used, Refusal>
    ensures { Tokenized script.now tokens.old texts.old errors.old result tokens.new texts.new errors.new }
{
    let script = ask_text(script)?;
    let n = script.bytes.len() - byte_order_mark::mark_length(script.bytes);
    if is_roomy(n, tokens.len(), texts.len(), errors.len()) {
        return Ok(run(script, tokens, texts, errors));
    }
    let u = count(script);
    ask_room(u, tokens.len(), texts.len(), errors.len())?;
    Ok(run(script, tokens, texts, errors))
}
