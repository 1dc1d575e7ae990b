// One element of a script, printed: the choice of what stands at a place.
#![tactic(auto)]

ghost use Rattle.std.specs.Prelude.{◌≡◌, true, false, ◌≤◌, ◌/◌, get_or};
ghost use Rattle.characters.specs.Utf8.{chars_at};
ghost use Rattle.rules.specs.Text.{ch};
ghost use Rattle.rules.specs.Scan.{next, starts_with};
ghost use Rattle.bridge.specs.Bridge.{placed, Within, exactly};
ghost use Rattle.walks.specs.Openings.{opens_doc};
ghost use Rattle.multiline.specs.Tokens.{slashes};
ghost use Rattle.classes.specs.Classes.{class_of};
ghost use Rattle.print_escapes.specs.Escapes.{MOST};
ghost use Rattle.print_places.specs.Places as places;
ghost use Rattle.print_steps.specs.Steps.{Chosen, PrintedAt};

use marks::Marks;
use print_places::{Flawed, Written};

// The string, ordinary or raw, at a place.
fn put_quoted(text: &[u8], from: usize, out: &mut [u8], at: usize) -> Result<Written, Flawed>
    requires within { Within text.now (placed from) }
    requires from_value { next (exactly (ch "\"")) (chars_at text.now from) ≡ true }
    requires at_bound { at ≤ MOST / 4 }
    ensures { places.EmittedAt true text.now from out.old out.new at result }
{
    if walks::ahead::stands_at(text, from, b"\"\"\"") {
        return print_tokens::put_raw(text, from, out, at);
    }
    print_strings::put_string(text, from, out, at)
}

// The doc comment at a place.
fn put_doc(text: &[u8], from: usize, out: &mut [u8], at: usize) -> Result<Written, Flawed>
    requires within { Within text.now (placed from) }
    requires from_value { starts_with slashes (chars_at text.now from) ≡ false → opens_doc (chars_at text.now from) ≡ true }
    requires at_bound { at ≤ MOST / 4 }
    ensures { places.EmittedAt false text.now from out.old out.new at result }
{
    if walks::ahead::stands_at(text, from, b"///") {
        return Ok(print_tokens::put_line_doc(text, from, out, at));
    }
    print_tokens::put_block_doc(text, from, out, at)
}

// What stands at a place of the class that is told, where nothing that is skipped does; and whether a space is due behind it.
pub fn put_element(
    marks: &Marks,
    text: &[u8],
    from: usize,
    class: u8,
    out: &mut [u8],
    at: usize,
) -> Result<(Written, bool), Flawed>
    requires within { Within text.now (placed from) }
    requires chosen { Chosen text.now from class }
    requires at_bound { at ≤ MOST / 4 }
    ensures { PrintedAt text.now from out.old out.new at result }
{
    if class == classes::QUOTE {
        return Ok((put_quoted(text, from, out, at)?, true));
    }
    if class == classes::APOSTROPHE {
        return Ok((print_tokens::put_character(text, from, out, at)?, true));
    }
    if words::begins_word(text, from, class) {
        let word = print_words::put_word(marks, text, from, class, out, at);
        return Ok((word, true));
    }
    if class == classes::DOLLAR {
        return Ok((print_tokens::put_braces(text, from, out, at), true));
    }
    Ok((put_doc(text, from, out, at)?, false))
}
