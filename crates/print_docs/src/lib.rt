// Doc comments as they are printed, each with the line feed behind it. Each function is handed the part of the script between the
// comment's marks.
#![tactic(auto)]

ghost use Rattle.std.specs.Prelude.{◌≡◌, true, false, [], ◌∷◌, ◌++◌, ◌≤◌, ◌+◌, ◌/◌, length};
ghost use Rattle.characters.specs.Utf8.{chars_of, encode};
ghost use Rattle.rules.specs.Text.{LF, one_of};
ghost use Rattle.rules.specs.Docs.{trim, clean_doc};
ghost use Rattle.rules.specs.Script.{LIMIT};
ghost use Rattle.output.specs.Writing.{Put};
ghost use Rattle.prints.specs.Print.{doc};
ghost use Rattle.prints.specs.Writing.{starred};
ghost use Rattle.print_escapes.specs.Escapes.{MOST};
ghost use Rattle.text_parts.specs.Parts.{part_bytes};
ghost use Rattle.text_parts.specs.Lines.{text_left, left_size, GoodCursor};
ghost use Rattle.print_docs.specs.Docs.{LinePart};

use characters::space;
use text_parts::lines::Cursor;
use text_parts::{Part, lines};

// A doc text of one line. That a part is no longer than a script is asked, here and below, and is no type: it bounds sums.
fn put_short(line: &[u8], out: &mut [u8], at: usize) -> usize
    requires line_len_bound { length line.now ≤ LIMIT }
    requires line_value { one_of line.now LF ≡ false }
    requires at_bound { at ≤ MOST }
    ensures { Put out.old out.new at (doc line.now ++ (LF ∷ [])) result }
{
    let front = output::put_bytes(b"/// ", out, at);
    let place = output::put_bytes(line, out, front);
    output::put_byte(out, place, b'\n')
}

// One part of a longer doc text: behind a line feed the next line begins.
fn put_part(part: &[u8], x: Part, out: &mut [u8], at: usize) -> usize
    requires part_len_bound { length part.now ≤ LIMIT }
    requires line_part { LinePart part.now x }
    requires at_bound { at ≤ MOST + MOST }
    ensures { Put out.old out.new at (starred (part_bytes part.now x)) result }
{
    match x {
        Part::Bytes(from, to) => output::put_bytes(&part[from..to], out, at),
        Part::Char(_) => output::put_bytes(b"\n* ", out, at),
        Part::Nothing => at,
    }
}

// The parts from a cursor on. The cursor is a value that a caller may keep and begin with again, as put_block_doc does, so it is no iterator.
fn put_lines(part: &[u8], c: Cursor, out: &mut [u8], at: usize) -> usize
    requires part_len_bound { length part.now ≤ LIMIT }
    requires good_cursor { GoodCursor part.now c }
    requires c_bound { left_size part.now c ≤ LIMIT }
    requires at_bound { at ≤ MOST }
    ensures { Put out.old out.new at (starred (text_left part.now c)) result }
{
    let mut cursor = c;
    let mut place = at;
    while let Some((x, behind)) = lines::next(part, cursor) {
        place = put_part(part, x, out, place);
        cursor = behind;
    }
    place
}

// A doc text of more than one line.
fn put_long(part: &[u8], c: Cursor, out: &mut [u8], at: usize) -> usize
    requires part_len_bound { length part.now ≤ LIMIT }
    requires good_cursor { GoodCursor part.now c }
    requires c_bound { left_size part.now c ≤ LIMIT }
    requires c_value { one_of (text_left part.now c) LF ≡ true }
    requires at_bound { at ≤ MOST / 2 }
    ensures { Put out.old out.new at (doc (text_left part.now c) ++ (LF ∷ [])) result }
{
    let front = output::put_bytes(b"/**\n* ", out, at);
    let place = put_lines(part, c, out, front);
    output::put_bytes(b"\n*/\n", out, place)
}

// The doc comment of three slashes, which has no line feed in it.
pub fn put_line_doc(part: &[u8], out: &mut [u8], at: usize) -> usize
    requires part_len_bound { length part.now ≤ LIMIT }
    requires part_value { one_of part.now LF ≡ false }
    requires at_bound { at ≤ MOST / 2 }
    ensures { Put out.old out.new at (doc (encode (trim (chars_of part.now))) ++ (LF ∷ [])) result }
{
    let start = doc_lines::past_chars(part, 0, space::is_white);
    let l = doc_lines::trimmed_line(part, start, |_| false);
    put_short(&part[l.from..l.to], out, at)
}

// The block doc comment.
pub fn put_block_doc(part: &[u8], out: &mut [u8], at: usize) -> usize
    requires part_len_bound { length part.now ≤ LIMIT }
    requires at_bound { at ≤ MOST / 2 }
    ensures { Put out.old out.new at (doc (encode (clean_doc (chars_of part.now))) ++ (LF ∷ [])) result }
{
    let c = lines::begin(part);
    let Some((_, behind)) = lines::next(part, c) else {
        return put_short(b"", out, at);
    };
    let second = lines::next(part, behind);
    let Some(_) = second else {
        return put_short(&part[c.from..c.to], out, at);
    };
    put_long(part, c, out, at)
}
