// The text of a string's piece: its units up to where none stands. A text needs no lines and columns, so all of it goes by places.
ghost use Rattle.std.specs.Prelude.{◌≡◌};
ghost use Rattle.bridge.specs.Bridge.{placed, Within};
ghost use Rattle.text_parts.specs.Units.{part_of, NextAt};

use super::Part;
use string_units::Made;

// The bytes of a backslash and its letter. The letters differ, so there is no one byte string whose length this would be.
const ESCAPE_BYTES: usize = 2;

// The next part and the place behind it. `plain` says that each character of the part stands for itself, `bad` that an error was recorded
// in it. The part counts either way, so neither flag is an Option of it, nor `bad` an error in its place.
#[derive(Clone, Copy)]
pub struct Step {
    pub part: Part,
    pub at: usize,
    pub plain: bool,
    pub bad: bool,
}

// The part that a unit from one place to another makes. It takes two places since a part holds them: it looks at no byte.
fn part_of(from: usize, to: usize, made: Made) -> Part
    ensures { result ≡ part_of from to made }
{
    match made {
        Made::Nothing => Part::Nothing,
        Made::Own => Part::Bytes(from, to),
        Made::Char(c) => Part::Char(c),
    }
}

// The unit at a place, or none.
fn unit_step(text: &[u8], from: usize) -> Option<Step>
    requires { Within text.now (placed from) }
    ensures { NextAt text.now from result }
{
    let Some(u) = string_units::unit_at(text, bridge::at_place(from)) else {
        return None;
    };
    let after = u.next;
    let made = u.made;
    Some(Step {
        part: part_of(from, after.offset, made),
        at: after.offset,
        plain: false,
        bad: u.mistake.is_some(),
    })
}

// The next part of the units from a place on; none where no unit stands. Most pieces are plain characters up to a quote, and most escapes
// are of one byte: these are looked for first.
pub fn next(text: &[u8], from: usize) -> Option<Step>
    requires { Within text.now (placed from) }
    ensures { NextAt text.now from result }
{
    let to = bridge::plain_end(text, from, b'"', b'$', b'\\');
    if from < to {
        return Some(Step {
            part: Part::Bytes(from, to),
            at: to,
            plain: true,
            bad: false,
        });
    }
    if bridge::is_at(text, from, b'"') {
        return None;
    }
    if let Some(v) = escapes::short_escape(text, from) {
        let made = u32::from(v);
        let behind = from + ESCAPE_BYTES;
        return Some(Step {
            part: Part::Char(made),
            at: behind,
            plain: false,
            bad: false,
        });
    }
    unit_step(text, from)
}
