// The list loop: the tokens, texts and errors of a script, one step after another.
#![tactic(auto)]

ghost use Rattle.std.specs.Prelude.{◌≡◌};
ghost use Rattle.room.specs.Needed.{needed};
ghost use Rattle.steps.specs.Step.{begin};
ghost use Rattle.list_loop.specs.Run.{Ran, nothing_used};

use questions::script::Script;
use room::Used;
use scanner::step;
use steps::{Cursor, Fill, Step, Within};
use words::Tables;

// The cursor at the beginning of a text: at its first line and column, outside of strings.
fn begin() -> Cursor
    ensures { result ≡ begin }
{
    Cursor {
        at: bridge::at_place(0),
        within: Within::Outside,
    }
}

// Nothing used yet, and nothing open.
fn nothing() -> Used
    ensures { result ≡ nothing_used }
{
    Used {
        tokens: 0,
        texts: 0,
        errors: 0,
        count: 0,
        closed: true,
    }
}

// The list loop: each token's record, text and errors, as far as the buffers hold them, and what all of them take.
pub fn run(script: Script<'_>, tokens: &mut [u8], texts: &mut [u8], errors: &mut [u8]) -> Used
    ensures { Ran script.entry.bytes.now tokens.old texts.old errors.old result tokens.new texts.new errors.new }
{
    let tables = Tables::new();
    let text = byte_order_mark::after_mark(script.bytes);
    let mut c = begin();
    let mut u = nothing();
    loop {
        let Step::Token(t, next) = step(
            &tables,
            text,
            c,
            texts,
            errors,
            Fill {
                texts: u.texts,
                errors: u.errors,
            },
        ) else {
            break;
        };
        let used = output::put_token(tokens, u.tokens, t.fields);
        let count = u.count + 1;
        u = Used {
            tokens: used,
            texts: t.fill.texts,
            errors: t.fill.errors,
            count,
            closed: u.closed & !t.ran_out,
        };
        c = next;
    }
    u
}

// What a script takes, by the list loop over no buffers.
pub fn count(script: Script<'_>) -> Used
    ensures { result ≡ needed script.entry.bytes.now }
{
    let mut tokens = [0u8; 0];
    let mut texts = [0u8; 0];
    let mut errors = [0u8; 0];
    run(script, &mut tokens, &mut texts, &mut errors)
}
