// Strings as they are printed: all their pieces in one pair of quotes.
#![tactic(auto)]

ghost use Rattle.std.specs.Prelude.{◌≡◌, true, false, ◌≤◌, ◌<◌, ◌/◌, length};
ghost use Rattle.characters.specs.Utf8.{chars_at};
ghost use Rattle.rules.specs.Text.{ch};
ghost use Rattle.rules.specs.Scan.{next, starts_with};
ghost use Rattle.rules.specs.Script.{LIMIT};
ghost use Rattle.bridge.specs.Bridge.{placed, Within, exactly};
ghost use Rattle.walks.specs.Walks.{quotes};
ghost use Rattle.output.specs.Writing.{Put, PLACES};
ghost use Rattle.prints.specs.Print.{literal, parting};
ghost use Rattle.print_escapes.specs.Escapes.{MOST};
ghost use Rattle.print_places.specs.Places as places;
ghost use Rattle.text_parts.specs.Parts.{part_bytes, PartWithin};
ghost use Rattle.print_strings.specs.Strings.{emitted_part, named_behind, RowAt, InterpolationAt};

use print_places::{Flawed, Written};
use text_parts::{Part, units};

// What was written inside a string: the place behind it, the place behind its bytes, and whether a `$name` stands right before what
// follows. The places count either way, so the flag makes no Option of them.
#[derive(Clone, Copy)]
pub struct Row {
    pub at: usize,
    pub out: usize,
    pub named: bool,
}

// Bytes of a literal: as they stand where `plain` says so, which spares a second look at each. Both flags say what the bytes are and what
// stands before them, as the walk over the units found it; the bytes written are the same for either value of `plain`.
// That they are no more than a script has is asked, here and below, and is no type: it bounds sums.
fn put_bytes(part: &[u8], plain: bool, named: bool, out: &mut [u8], at: usize) -> usize
    requires part_some { 0 < length part.now }
    requires part_len_bound { length part.now ≤ LIMIT }
    requires part_value { plain ≡ true → literal named part.now ≡ part.now }
    requires at_bound { at ≤ MOST }
    ensures { Put out.old out.new at (literal named part.now) result }
{
    if plain {
        return output::put_bytes(part, out, at);
    }
    print_escapes::put_literal(part, named, out, at)
}

// One part of a literal; `named` says that a `$name` stands right before it, `plain` that it is written as it stands.
fn put_part(s: &[u8], part: Part, plain: bool, named: bool, out: &mut [u8], at: usize) -> usize
    requires part_within { PartWithin s.now part }
    requires s_len_bound { length s.now ≤ LIMIT }
    requires part_value { plain ≡ true → emitted_part named s.now part ≡ part_bytes s.now part }
    requires at_bound { at ≤ MOST }
    ensures { Put out.old out.new at (emitted_part named s.now part) result }
{
    match part {
        Part::Bytes(from, to) => put_bytes(&s[from..to], plain, named, out, at),
        Part::Char(c) => print_escapes::put_letter(c, named, out, at),
        Part::Nothing => at,
    }
}

// Whether a `$name` stands right before what follows a part.
fn is_named(named: bool, part: Part) -> bool
    ensures { result ≡ named_behind named part }
{
    match part {
        Part::Bytes(_, _) => false,
        Part::Char(_) => false,
        Part::Nothing => named,
    }
}

// The units from a place to where none stands. Each says where the next begins, so that there is nothing for `for` to count.
fn put_units(s: &[u8], from: usize, named: bool, out: &mut [u8], at: usize) -> Result<Row, Flawed>
    requires within { Within s.now (placed from) }
    requires at_bound { at ≤ MOST / 2 }
    ensures { RowAt s.now from named out.old out.new at result }
{
    let mut c = from;
    let mut place = at;
    let mut name = named;
    while let Some(n) = units::next(s, c) {
        if n.bad {
            return Err(Flawed);
        }
        let part = n.part;
        let plain = n.plain & !name;
        place = put_part(s, part, plain, name, out, place);
        name = is_named(name, part);
        c = n.at;
    }
    Ok(Row {
        at: c,
        out: place,
        named: name,
    })
}

// What parts a `$name` from an interpolation right behind it. The flag says what was written before, as the definition `parting` has it.
fn put_parting(named: bool, out: &mut [u8], at: usize) -> usize
    requires { at ≤ PLACES }
    ensures { Put out.old out.new at (parting named) result }
{
    if named {
        return output::put_bytes(b"\\uD800", out, at);
    }
    at
}

// The interpolation whose dollar sign stands at a place.
fn put_interpolation(
    s: &[u8],
    from: usize,
    named: bool,
    out: &mut [u8],
    at: usize,
) -> Result<Row, Flawed>
    requires within { Within s.now (placed from) }
    requires from_value { next (exactly (ch "$")) (chars_at s.now from) ≡ true }
    requires at_bound { at ≤ MOST }
    ensures { InterpolationAt s.now from named out.old out.new at result }
{
    let c = interpolations::past_interpolation(s, bridge::at_place(from));
    if !c.found {
        return Err(Flawed);
    }
    let q = c.at;
    let to = q.offset;
    let place = put_parting(named, out, at);
    let end = output::put_bytes(&s[from..to], out, place);
    let braces = bridge::is_at(s, from + 1, b'{');
    Ok(Row {
        at: to,
        out: end,
        named: !braces,
    })
}

// The string whose opening quote stands at a place.
pub fn put_string(s: &[u8], from: usize, out: &mut [u8], at: usize) -> Result<Written, Flawed>
    requires within { Within s.now (placed from) }
    requires from_value { next (exactly (ch "\"")) (chars_at s.now from) ≡ true }
    requires from_value_2 { starts_with quotes (chars_at s.now from) ≡ false }
    requires at_bound { at ≤ MOST / 4 }
    ensures { places.EmittedAt true s.now from out.old out.new at result }
{
    let mut c = from + 1;
    let mut place = output::put_byte(out, at, b'"');
    let mut named = false;
    loop {
        let r = put_units(s, c, named, out, place)?;
        let stop = r.at;
        if bridge::is_at(s, stop, b'"') {
            let behind = stop + 1;
            return Ok(Written {
                at: behind,
                out: output::put_byte(out, r.out, b'"'),
            });
        }
        if !bridge::is_at(s, stop, b'$') {
            return Err(Flawed);
        }
        let i = put_interpolation(s, stop, r.named, out, r.out)?;
        c = i.at;
        place = i.out;
        named = i.named;
    }
}
