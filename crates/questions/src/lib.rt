// The questions that are asked of a script and of the buffers before the answer.
#![tactic(auto)]

ghost use Rattle.std.specs.Prelude.{◌≡◌};
ghost use Rattle.refusals.specs.Answers.{of_answer};
ghost use Rattle.questions.specs.Questions.{ask_room, Asked};

use refusals::Refusal;
use room::Used;
use rules::LIMIT;
use script::Script;

pub mod script; // script.rt: a script that has passed questions 1 and 2

// Questions 1 and 2.
pub fn ask_text(script: &[u8]) -> Result<Script<'_>, Refusal>
    ensures { Asked script.now result }
{
    if LIMIT < script.len() {
        return Err(Refusal::Length(script.len() as u64));
    }
    let Some(at) = utf8_check::first_bad(script) else {
        return Ok(Script { bytes: script });
    };
    Err(utf8_classes::bad_class(script, at))
}

// Questions 3, 4 and 5, for buffers of these sizes.
pub fn ask_room(u: Used, tokens: usize, texts: usize, errors: usize) -> Result<(), Refusal>
    ensures { of_answer result ≡ ask_room u tokens texts errors }
{
    if tokens < u.tokens {
        return Err(Refusal::Tokens(u.tokens as u64));
    }
    if texts < u.texts {
        return Err(Refusal::Texts(u.texts as u64));
    }
    if errors < u.errors {
        return Err(Refusal::Errors(u.errors as u64));
    }
    Ok(())
}
