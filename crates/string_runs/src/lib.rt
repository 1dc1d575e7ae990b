// The units of a string up to where none stands, written while they are scanned.
#![tactic(auto)]

ghost use Rattle.std.specs.Prelude.{◌+◌, ◌*◌, ◌≤◌, length};
ghost use Rattle.rules.specs.Script.{LIMIT};
ghost use Rattle.records.specs.Errors.{error_of};
ghost use Rattle.bridge.specs.Bridge.{Within, Fits};
ghost use Rattle.output.specs.Writing.{Put, PLACES};
ghost use Rattle.records.specs.Layout.{error_record_of, error_bytes};
ghost use Rattle.string_units.specs.Units.{made_of, IsChar, span_behind, mistakes};
ghost use Rattle.string_runs.specs.Runs.{USED, Room, Wrote, RunAt};

use records::answers::ErrorRecord;
use records::errors::ErrorKind;
use spans::Position;
use string_units::{Made, Mistake};
use walks::error;

// Units without errors, one after another: where they end, and how many bytes of the texts are used then.
#[derive(Clone, Copy)]
pub struct Written {
    pub at: Position,
    pub texts: usize,
}

// Units one after another: where they end, and how many bytes of the two buffers are used then.
#[derive(Clone, Copy)]
pub struct Run {
    pub at: Position,
    pub texts: usize,
    pub errors: usize,
}

// Writes what a unit makes, whose own bytes are `own`.
pub fn put_made(own: &[u8], made: Made, texts: &mut [u8], at: usize) -> usize
    requires own_len_bound { length own.now ≤ LIMIT }
    requires char { IsChar made }
    requires at_bound { at ≤ PLACES }
    ensures { Put texts.old texts.new at (made_of own.now made) result }
{
    match made {
        Made::Nothing => at,
        Made::Own => output::put_bytes(own, texts, at),
        Made::Char(c) => output::put_char(c, texts, at),
    }
}

// Writes the error of this kind that stands behind the backslash at p.
fn put_behind(p: Position, kind: ErrorKind, errors: &mut [u8], at: usize) -> usize
    requires fits { Fits p 1 }
    requires at_bound { at ≤ PLACES }
    ensures { Put errors.old errors.new at (error_record_of (error_of (record { kind = kind; span = span_behind p }))) result }
{
    let q = bridge::along(p, 1);
    let span = error::between(q, q);
    output::put_error_record(errors, at, ErrorRecord { kind, span })
}

// Writes the error of a unit at p.
pub fn put_mistake(p: Position, mistake: Option<Mistake>, errors: &mut [u8], at: usize) -> usize
    requires fits { Fits p 1 }
    requires at_bound { at ≤ PLACES }
    ensures { Put errors.old errors.new at (error_bytes (mistakes p mistake)) result }
{
    match mistake {
        None => at,
        Some(Mistake::BadUnicode) => put_behind(p, ErrorKind::BadUnicodeEscape, errors, at),
        Some(Mistake::BadEscape(e)) => put_behind(p, ErrorKind::BadEscape(e), errors, at),
    }
}

// Writes the escapes of one byte from p on.
fn put_escapes(text: &[u8], p: Position, texts: &mut [u8], used_texts: usize) -> Written
    requires within { Within text.now p }
    requires used_texts_bound { used_texts ≤ USED + 2 * LIMIT }
    ensures { Wrote text.now p result.at texts.old texts.new used_texts result.texts }
{
    let mut at = p;
    let mut made = used_texts;
    while let Some(v) = escapes::short_escape(text, at.offset) {
        made = output::put_byte(texts, made, v);
        at = bridge::along(at, 2);
    }
    Written { at, texts: made }
}

// Writes the characters that stand for themselves and the escapes of one byte, from p on.
fn put_simple(text: &[u8], p: Position, texts: &mut [u8], used_texts: usize) -> Written
    requires within { Within text.now p }
    requires used_texts_bound { used_texts ≤ USED + LIMIT }
    ensures { Wrote text.now p result.at texts.old texts.new used_texts result.texts }
{
    let mut at = p;
    let mut made = used_texts;
    loop {
        let from = at.offset;
        let q = bridge::past_plain(text, at, b'"', b'$', b'\\');
        let to = q.offset;
        let part = output::put_bytes(&text[from..to], texts, made);
        let w = put_escapes(text, q, texts, part);
        at = w.at;
        made = w.texts;
        if at.offset == to {
            return w;
        }
    }
}

// The units from p to where none stands. The places of the two buffers are two numbers, since half of such functions fill one buffer alone;
// the steps, which hand on both, have a struct for them.
pub fn run_units(
    text: &[u8],
    p: Position,
    texts: &mut [u8],
    used_texts: usize,
    errors: &mut [u8],
    used_errors: usize,
) -> Run
    requires within { Within text.now p }
    requires room { Room used_texts used_errors }
    ensures { RunAt text.now p texts.old texts.new used_texts errors.old errors.new used_errors result }
{
    let mut at = p;
    let mut made = used_texts;
    let mut noted = used_errors;
    loop {
        let w = put_simple(text, at, texts, made);
        let q = w.at;
        let part = w.texts;
        let Some(u) = string_units::unit_at(text, q) else {
            return Run {
                at: q,
                texts: part,
                errors: noted,
            };
        };
        let next = u.next;
        let makes = u.made;
        let mistake = u.mistake;
        made = put_made(&text[q.offset..next.offset], makes, texts, part);
        noted = put_mistake(q, mistake, errors, noted);
        at = next;
    }
}
