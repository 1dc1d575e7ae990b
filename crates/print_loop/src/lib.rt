// The print of a script: its elements one after another.
#![tactic(auto)]

ghost use Rattle.std.specs.Prelude.{◌≤◌};
ghost use Rattle.bridge.specs.Bridge.{placed, Within};
ghost use Rattle.output.specs.Writing.{Put, PLACES};
ghost use Rattle.prints.specs.Writing.{due_space};
ghost use Rattle.print_places.specs.Places as places;
ghost use Rattle.print_loop.specs.Loops.{FRONT, Nothing, EndAt, TurnAt, WalkedAt};

use marks::Marks;
use print_places::{Flawed, Written};
use questions::script::Script;

// The space that is due: one byte or none, as the element before it says. A closure that writes it would be no plainer.
#[tactic(auto, unfolding(prints::specs::Writing::due_space))]
fn put_space(due: bool, out: &mut [u8], at: usize) -> usize
    requires { at ≤ PLACES }
    ensures { Put out.old out.new at (due_space due) result }
{
    if due {
        return output::put_byte(out, at, b' ');
    }
    at
}

// Where nothing begins: the end of the text, or a character that is not expected, which is an error.
fn end_at(text: &[u8], from: usize) -> Result<(), Flawed>
    requires within { Within text.now (placed from) }
    requires nothing { Nothing text.now from }
    ensures { EndAt text.now from result }
{
    let Some(_) = bridge::look(text, bridge::at_place(from)) else {
        return Ok(());
    };
    Err(Flawed)
}

// The next element from a place on, behind a space if one is due, and whether a space is due behind it; none where nothing is left.
// The element counts either way, so the flags are no Options.
fn next(
    marks: &Marks,
    text: &[u8],
    from: usize,
    due: bool,
    out: &mut [u8],
    at: usize,
) -> Result<Option<(Written, bool)>, Flawed>
    requires within { Within text.now (placed from) }
    requires at_bound { at ≤ FRONT }
    ensures { TurnAt text.now from due out.old out.new at result }
{
    let g = print_skips::skip(&marks.classes, text, from)?;
    let start = g.at;
    let class = g.class;
    if class == classes::OTHER {
        end_at(text, start)?;
        return Ok(None);
    }
    let place = put_space(due, out, at);
    let element = print_steps::put_element(marks, text, start, class, out, place)?;
    Ok(Some(element))
}

// The bytes of the print of a script, as far as the buffer holds it.
pub fn write(script: Script<'_>, out: &mut [u8]) -> Result<usize, Flawed>
    ensures { WalkedAt script.entry.bytes.now out.old out.new result }
{
    let marks = Marks::new();
    let text = byte_order_mark::after_mark(script.bytes);
    let mut from = 0;
    let mut due = false;
    let mut at = 0;
    while let Some((w, space)) = next(&marks, text, from, due, out, at)? {
        from = w.at;
        at = w.out;
        due = space;
    }
    Ok(at)
}
