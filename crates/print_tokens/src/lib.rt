// Tokens that are printed otherwise than they stand: raw strings, character literals, `${..}` outside of strings, doc comments.
#![tactic(auto)]

ghost use Rattle.std.specs.Prelude.{◌≡◌, true, false, ◌≤◌, ◌/◌, length};
ghost use Rattle.std.proofs.Math.Seq.{slice};
ghost use Rattle.characters.specs.Utf8.{chars_at};
ghost use Rattle.rules.specs.Text.{ch};
ghost use Rattle.rules.specs.Scan.{next, starts_with};
ghost use Rattle.rules.specs.Script.{LIMIT};
ghost use Rattle.bridge.specs.Bridge.{placed, Within, exactly};
ghost use Rattle.walks.specs.Walks.{quotes};
ghost use Rattle.walks.specs.Openings.{opens_doc};
ghost use Rattle.multiline.specs.Tokens.{dollar_brace, slashes};
ghost use Rattle.output.specs.Writing.{Put};
ghost use Rattle.prints.specs.Print.{character};
ghost use Rattle.print_escapes.specs.Escapes.{MOST};
ghost use Rattle.print_places.specs.Places as places;

use print_places::{Flawed, Written};

// The bytes of the longest character: the size of a buffer, which no byte string tells.
const CHARACTER_BYTES: usize = 4;

// The quotes in front of a raw string's text: how far they are passed. The string itself stands where they are looked for.
const QUOTES: usize = 3;

// The raw string at a place, as an ordinary one.
pub fn put_raw(text: &[u8], from: usize, out: &mut [u8], at: usize) -> Result<Written, Flawed>
    requires within { Within text.now (placed from) }
    requires from_value { starts_with quotes (chars_at text.now from) ≡ true }
    requires at_bound { at ≤ MOST / 4 }
    ensures { places.EmittedAt true text.now from out.old out.new at result }
{
    let mut texts = [0u8; 0];
    let mut errors = [0u8; 0];
    let m = multiline::raw(text, bridge::at_place(from), &mut texts, 0, &mut errors, 0);
    // The place behind the errors, past 0 where one was recorded, whatever its kind: a flag beside it would say the same again.
    if 0 < m.errors {
        return Err(Flawed);
    }
    let q = m.at;
    let begin = from + QUOTES;
    let end = begin + m.texts;
    let front = output::put_byte(out, at, b'"');
    let place = print_escapes::put_escapes(b'"', &text[begin..end], out, front);
    Ok(Written {
        at: q.offset,
        out: output::put_byte(out, place, b'"'),
    })
}

// A character literal whose text is the first n bytes of `made`: they are cut off here alone, where they are written.
fn put_made(made: &[u8], n: usize, out: &mut [u8], at: usize) -> usize
    requires n_in_bounds { n ≤ length made.now }
    requires n_bound { n ≤ LIMIT }
    requires at_bound { at ≤ MOST }
    ensures { Put out.old out.new at (character (slice 0 n made.now)) result }
{
    if n == 0 {
        return output::put_bytes(b"'\\uD800'", out, at);
    }
    let front = output::put_byte(out, at, b'\'');
    let place = print_escapes::put_escapes(b'\'', &made[..n], out, front);
    output::put_byte(out, place, b'\'')
}

// The character literal at a place.
pub fn put_character(text: &[u8], from: usize, out: &mut [u8], at: usize) -> Result<Written, Flawed>
    requires within { Within text.now (placed from) }
    requires from_value { next (exactly (ch "'")) (chars_at text.now from) ≡ true }
    requires at_bound { at ≤ MOST / 4 }
    ensures { places.EmittedAt true text.now from out.old out.new at result }
{
    let mut made = [0u8; CHARACTER_BYTES];
    let mut errors = [0u8; 0];
    let l = letters::character(text, bridge::at_place(from), &mut made, 0, &mut errors, 0);
    // The place behind the errors, as for a raw string.
    if 0 < l.errors {
        return Err(Flawed);
    }
    let q = l.at;
    Ok(Written {
        at: q.offset,
        out: put_made(&made, l.texts, out, at),
    })
}

// `${` at a place, up to its closing brace.
pub fn put_braces(text: &[u8], from: usize, out: &mut [u8], at: usize) -> Written
    requires within { Within text.now (placed from) }
    requires from_value { starts_with dollar_brace (chars_at text.now from) ≡ true }
    requires at_bound { at ≤ MOST / 4 }
    ensures { places.Emits true text.now from out.old out.new at result }
{
    let mut texts = [0u8; 0];
    let m = multiline::braces(text, bridge::at_place(from), &mut texts, 0);
    let q = m.at;
    Written {
        at: q.offset,
        out: output::put_bytes(b"${}", out, at),
    }
}

// The doc comment of one line at a place.
pub fn put_line_doc(text: &[u8], from: usize, out: &mut [u8], at: usize) -> Written
    requires within { Within text.now (placed from) }
    requires from_value { starts_with slashes (chars_at text.now from) ≡ true }
    requires at_bound { at ≤ MOST / 4 }
    ensures { places.Emits false text.now from out.old out.new at result }
{
    let d = multiline::doc_line(text, bridge::at_place(from));
    let begin = d.from;
    let end = d.to;
    let q = d.at;
    Written {
        at: q.offset,
        out: print_docs::put_line_doc(&text[begin..end], out, at),
    }
}

// The block doc comment at a place.
pub fn put_block_doc(text: &[u8], from: usize, out: &mut [u8], at: usize) -> Result<Written, Flawed>
    requires within { Within text.now (placed from) }
    requires from_value { opens_doc (chars_at text.now from) ≡ true }
    requires at_bound { at ≤ MOST / 4 }
    ensures { places.EmittedAt false text.now from out.old out.new at result }
{
    let mut errors = [0u8; 0];
    let d = multiline::doc_block(text, bridge::at_place(from), &mut errors, 0);
    // The place behind the errors, as for a raw string.
    if 0 < d.errors {
        return Err(Flawed);
    }
    let begin = d.from;
    let end = d.to;
    let behind = d.at;
    Ok(Written {
        at: behind.offset,
        out: print_docs::put_block_doc(&text[begin..end], out, at),
    })
}
