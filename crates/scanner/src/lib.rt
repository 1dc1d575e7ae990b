// One step, outside and inside of strings.
#![tactic(auto)]

ghost use Rattle.std.specs.Prelude.{◌≡◌};
ghost use Rattle.steps.specs.Step.{Good, Used, Stepped};
ghost use Rattle.scanner.specs.Entry.{known_entry, begun_entry, Entered};

use spans::Position;
use steps::{Cursor, Fill, Step, Within};
use strings::{Piece, pieces};
use words::Tables;

// Where a step begins: the step itself where it is known already; else the position at which one outside of strings begins, and how
// many bytes of the errors are used there. It is a struct with a flag because it is faster: a `match` whose arms
// return the step was proved and measured, and took 5 to 8 % longer.
#[derive(Clone, Copy)]
pub struct Entry {
    pub step: Step,
    pub at: Position,
    pub errors: usize,
    pub known: bool,
}

// A step that is known.
fn known(step: Step, p: Position, used: usize) -> Entry
    ensures { result ≡ known_entry step p used }
{
    Entry {
        step,
        at: p,
        errors: used,
        known: true,
    }
}

// A step that begins at a position outside of strings.
fn begun(p: Position, used: usize) -> Entry
    ensures { result ≡ begun_entry p used }
{
    Entry {
        step: Step::End,
        at: p,
        errors: used,
        known: false,
    }
}

// Where a step from a cursor begins: inside a string its next piece is the step, and where the string gives no more, a step behind it
// is begun.
fn enter(text: &[u8], c: Cursor, texts: &mut [u8], errors: &mut [u8], fill: Fill) -> Entry
    requires good { Good text.now c }
    requires used { Used fill.texts fill.errors }
    ensures { Entered text.now c texts.old fill.texts errors.old fill.errors result texts.new errors.new }
{
    let p = c.at;
    let within = c.within;
    match within {
        Within::Outside => begun(p, fill.errors),
        Within::Inside(offset, line, col) => {
            let start = Position { offset, line, col };
            let x = pieces::piece(
                text,
                p,
                start,
                false,
                texts,
                fill.texts,
                errors,
                fill.errors,
            );
            match x {
                Piece::Token(g) => known(string_tokens::given_step(g), p, fill.errors),
                Piece::Over(q, used) => begun(q, used),
            }
        }
        Within::Ended => known(Step::End, p, fill.errors),
    }
}

// One step from a cursor: the next token, with its text written at texts[fill.texts..] and its errors at errors[fill.errors..],
// as far as the buffers reach; or the end, behind EOF.
pub fn step(
    tables: &Tables,
    text: &[u8],
    c: Cursor,
    texts: &mut [u8],
    errors: &mut [u8],
    fill: Fill,
) -> Step
    requires good { Good text.now c }
    requires used { Used fill.texts fill.errors }
    ensures { Stepped text.now c texts.old fill.texts errors.old fill.errors result texts.new errors.new }
{
    let e = enter(text, c, texts, errors, fill);
    if e.known {
        return e.step;
    }
    let p = e.at;
    let used = e.errors;
    outside_steps::outside_step(
        tables,
        text,
        p,
        texts,
        errors,
        Fill {
            texts: fill.texts,
            errors: used,
        },
    )
}
