// One unit of a string: a character, an escape, or a bad escape.
#![tactic(auto)]

ghost use Rattle.std.specs.Prelude.{◌≡◌};
ghost use Rattle.characters.specs.Utf8.{chars_at};
ghost use Rattle.rules.specs.Scan.{next};
ghost use Rattle.rules.specs.Strings.{is_interp_start};
ghost use Rattle.cursor.specs.Strings.{escape_unit};
ghost use Rattle.bridge.specs.Bridge.{Within, Reach};
ghost use Rattle.string_units.specs.Units.{backslash, backslash_u, unicode_unit, UnitAt, FoundAt, plain_found};

use characters::{LINE_FEED, utf8};
use spans::Position;

// The characters that a string's units are told by, beside the line feed.
pub const QUOTE: u32 = b'"' as u32;

pub const BACKSLASH: u32 = b'\\' as u32;

const DOLLAR: u32 = b'$' as u32;

pub const LETTER_U: u32 = b'u' as u32;

// What a unit makes: nothing, the bytes that it takes, or one character. Each has a meaning of its own, which an Option in a Result would
// not name.
#[derive(Clone, Copy)]
pub enum Made {
    Nothing,
    Own,
    Char(u32),
}

// The error of a unit: a bad `\u`, or a bad escape with its letter. It stands behind the unit's backslash.
#[derive(Clone, Copy)]
pub enum Mistake {
    BadUnicode,
    BadEscape(u32),
}

// A unit of a string, and the position after it.
#[derive(Clone, Copy)]
pub struct Unit {
    pub next: Position,
    pub made: Made,
    pub mistake: Option<Mistake>,
}

// Whether a dollar sign before the byte opens an interpolation: a brace, or what a name begins with but a second dollar sign.
fn is_interp_start(b: u8) -> bool
    ensures { result ≡ is_interp_start b }
{
    b.is_ascii_alphabetic() | (b == b'_') | (b == b'{')
}

// Whether a dollar sign before a place opens an interpolation. It reads a byte and asks one test, as `hex_at` of escapes does: a function
// with the test as a parameter would be no more than a call of it.
pub fn opens_at(text: &[u8], at: usize) -> bool
    ensures { result ≡ next is_interp_start (chars_at text.now at) }
{
    let b = utf8::byte_at(text, at);
    is_interp_start(b)
}

// The unit of the backslash and the u at p, before r.
pub fn unicode(text: &[u8], p: Position, r: Position) -> Unit
    requires within { Within text.now p }
    requires reach { Reach text.now p backslash_u r }
    ensures { UnitAt text.now p (unicode_unit (chars_at text.now r.offset)) result }
{
    let at = r.offset;
    let Some(v) = escapes::four_digits(text, at) else {
        return Unit {
            next: r,
            made: Made::Nothing,
            mistake: Some(Mistake::BadUnicode),
        };
    };
    let next = bridge::along(r, 4);
    if encoding::is_scalar(v) {
        return Unit {
            next,
            made: Made::Char(v),
            mistake: None,
        };
    }
    Unit {
        next,
        made: Made::Nothing,
        mistake: None,
    }
}

// The unit of the backslash at p, before q.
fn escape(text: &[u8], p: Position, q: Position) -> Unit
    requires within { Within text.now p }
    requires reach { Reach text.now p backslash q }
    ensures { UnitAt text.now p (escape_unit (chars_at text.now q.offset)) result }
{
    let Some((e, r)) = bridge::look(text, q) else {
        return Unit {
            next: q,
            made: Made::Nothing,
            mistake: None,
        };
    };
    if e == LETTER_U {
        return unicode(text, p, r);
    }
    let Some(v) = escapes::escaped(e) else {
        return Unit {
            next: r,
            made: Made::Own,
            mistake: Some(Mistake::BadEscape(e)),
        };
    };
    Unit {
        next: r,
        made: Made::Char(v),
        mistake: None,
    }
}

// A character that stands for itself, before q.
fn plain(q: Position) -> Option<Unit>
    ensures { result ≡ plain_found q }
{
    Some(Unit {
        next: q,
        made: Made::Own,
        mistake: None,
    })
}

// The unit of a string at a position; none at the end, a line feed, a quote and an interpolation.
pub fn unit_at(text: &[u8], p: Position) -> Option<Unit>
    requires { Within text.now p }
    ensures { FoundAt text.now p result }
{
    let Some((c, q)) = bridge::look(text, p) else {
        return None;
    };
    if c == LINE_FEED {
        return None;
    }
    if c == QUOTE {
        return None;
    }
    if c == BACKSLASH {
        return Some(escape(text, p, q));
    }
    if c == DOLLAR {
        if opens_at(text, q.offset) {
            return None;
        }
        return plain(q);
    }
    plain(q)
}
