// Character literals, whose texts and errors are written while they are scanned.
#![tactic(auto)]

ghost use Rattle.std.specs.Prelude.{◌≡◌, true, [], ◌∷◌, ◌≤◌};
ghost use Rattle.characters.specs.Utf8.{chars_at};
ghost use Rattle.rules.specs.Text.{ch};
ghost use Rattle.rules.specs.Scan.{next};
ghost use Rattle.bridge.specs.Bridge.{Within, Reach, exactly};
ghost use Rattle.string_units.specs.Units.{UnitAt};
ghost use Rattle.string_runs.specs.Runs.{Room};
ghost use Rattle.letters.specs.Letters.{escape_letter, LetterAt, ClosedAt, CharacterAt};
ghost use Rattle.output.specs.Writing.{PLACES};

use records::errors::ErrorKind;
use spans::Position;
use string_units::{BACKSLASH, LETTER_U, Made, Unit};
use walks::error;

// The escape of the backslash at p and the letter e, before r. A letter that is no escape's stands for itself.
fn escape(text: &[u8], p: Position, e: u32, r: Position) -> Unit
    requires within { Within text.now p }
    requires e_bound { e ≤ 0x10FFFF }
    requires reach { Reach text.now p (ch "\\" ∷ e ∷ []) r }
    ensures { UnitAt text.now p (escape_letter e (chars_at text.now r.offset)) result }
{
    if e == LETTER_U {
        return string_units::unicode(text, p, r);
    }
    let v = escapes::escaped(e).unwrap_or(e);
    Unit {
        next: r,
        made: Made::Char(v),
        mistake: None,
    }
}

// What stands at p, behind the opening quote: a character or an escape; or the position where the text ran out, behind the quote or
// behind a backslash.
fn letter_at(text: &[u8], p: Position) -> Result<Unit, Position>
    requires { Within text.now p }
    ensures { LetterAt text.now p result }
{
    let (c, q) = bridge::look(text, p).ok_or(p)?;
    if c == BACKSLASH {
        let (e, r) = bridge::look(text, q).ok_or(q)?;
        return Ok(escape(text, p, e, r));
    }
    Ok(Unit {
        next: q,
        made: Made::Own,
        mistake: None,
    })
}

// The closing quote is expected at p.
fn close(
    text: &[u8],
    p: Position,
    used_texts: usize,
    errors: &mut [u8],
    used_errors: usize,
) -> multiline::Made
    requires within { Within text.now p }
    requires used_errors_bound { used_errors ≤ PLACES }
    ensures { ClosedAt text.now p used_texts errors.old errors.new used_errors result }
{
    let closed = bridge::is_at(text, p.offset, b'\'');
    let kind = ErrorKind::UnterminatedCharacter;
    let noted = error::put_open(errors, used_errors, closed, kind, p, p);
    if closed {
        return multiline::Made {
            at: bridge::along(p, 1),
            texts: used_texts,
            errors: noted,
            ran_out: false,
        };
    }
    multiline::Made {
        at: p,
        texts: used_texts,
        errors: noted,
        ran_out: false,
    }
}

// The character literal whose opening quote stands at p.
pub fn character(
    text: &[u8],
    p: Position,
    texts: &mut [u8],
    used_texts: usize,
    errors: &mut [u8],
    used_errors: usize,
) -> multiline::Made
    requires within { Within text.now p }
    requires offset_value { next (exactly (ch "'")) (chars_at text.now p.offset) ≡ true }
    requires room { Room used_texts used_errors }
    ensures { CharacterAt text.now p texts.old texts.new used_texts errors.old errors.new used_errors result }
{
    let q = bridge::along(p, 1);
    let l = letter_at(text, q);
    match l {
        Ok(u) => {
            let next = u.next;
            let makes = u.made;
            let mistake = u.mistake;
            let own = &text[q.offset..next.offset];
            let made = string_runs::put_made(own, makes, texts, used_texts);
            let noted = string_runs::put_mistake(q, mistake, errors, used_errors);
            close(text, next, made, errors, noted)
        }
        Err(end) => {
            let kind = ErrorKind::UnterminatedCharacter;
            let noted = error::put_open(errors, used_errors, false, kind, end, end);
            multiline::Made {
                at: end,
                texts: used_texts,
                errors: noted,
                ran_out: true,
            }
        }
    }
}
