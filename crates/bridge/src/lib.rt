// The bridge between the code and the rules: places of the code are bytes, the rules speak of characters.
#![tactic(auto)]

ghost use Rattle.std.specs.Prelude.{◌≡◌};
ghost use Rattle.characters.specs.Utf8.{width, chars_at};
ghost use Rattle.rules.specs.Scan.{next};
ghost use Rattle.rules.specs.Lexer.{advance};
ghost use Rattle.bridge.specs.Bridge.{placed, Fits, Letter, exactly, onward, Within, NextAt, is_plain, Stops, PastRun, RunEnd};

use characters::{Decoded, LINE_FEED};
use spans::Position;

// The first character behind the line feed: from it on each moves along its line.
const BEHIND_LINE_FEED: u8 = b'\n' + 1;

// The position at a place, for a walk in which lines and columns play no part: it has the first of both.
pub fn at_place(place: usize) -> Position
    ensures { result ≡ placed place }
{
    Position {
        offset: place,
        line: 1,
        col: 1,
    }
}

// The position n bytes on, each a character and none a line feed.
pub fn along(p: Position, n: usize) -> Position
    requires { Fits p n }
    ensures { result ≡ onward p n }
{
    Position {
        offset: p.offset + n,
        line: p.line,
        col: p.col + n,
    }
}

// Whether the byte b stands at a place.
pub fn is_at(text: &[u8], at: usize, b: u8) -> bool
    requires { Letter b }
    ensures { result ≡ next (exactly b) (chars_at text.now at) }
{
    characters::utf8::byte_at(text, at) == b
}

// The position after the character c, of n bytes.
pub fn past(p: Position, c: u32, n: usize) -> Position
    requires fits { Fits p n }
    requires n_value { n ≡ width c }
    ensures { result ≡ advance p c }
{
    if c == LINE_FEED {
        return Position {
            offset: p.offset + n,
            line: p.line + 1,
            col: 1,
        };
    }
    Position {
        offset: p.offset + n,
        line: p.line,
        col: p.col + 1,
    }
}

// What stands at a position: a character, and the position after it; or nothing.
pub fn look(text: &[u8], p: Position) -> Option<(u32, Position)>
    requires { Within text.now p }
    ensures { NextAt text.now p result }
{
    let at = p.offset;
    let d = characters::utf8::decode_valid(text, at);
    match d {
        Decoded::Code(c, n) => Some((c, past(p, c, n))),
        Decoded::Bad => None,
        Decoded::End => None,
    }
}

// Whether a byte belongs to a character that is passed, where x, y and z are not. Every byte of a character beyond ASCII does. They are three
// parameters, here and below: an array would be taken apart again for each byte.
fn is_plain(x: u8, y: u8, z: u8, b: u8) -> bool
    ensures { result ≡ is_plain x y z b }
{
    (BEHIND_LINE_FEED <= b) & !(b == x) & !(b == y) & !(b == z)
}

// The position after the plain characters at p. It goes byte by byte: each byte but a character's tails is a column. The place and the
// column are counted together, so that an iterator over the bytes would be no plainer.
pub fn past_plain(text: &[u8], p: Position, x: u8, y: u8, z: u8) -> Position
    requires within { Within text.now p }
    requires stops { Stops x y z }
    ensures { PastRun (is_plain x y z) text.now p result }
{
    let line = p.line;
    let mut at = p.offset;
    let mut col = p.col;
    while at < text.len() {
        let b = text[at];
        if !is_plain(x, y, z, b) {
            return Position {
                offset: at,
                line,
                col,
            };
        }
        if !characters::utf8::is_tail(b) {
            col += 1;
        }
        at += 1;
    }
    Position {
        offset: at,
        line,
        col,
    }
}

// The place after the plain characters at a place, for a walk in which lines and columns play no part.
pub fn plain_end(text: &[u8], from: usize, x: u8, y: u8, z: u8) -> usize
    requires { Stops x y z }
    ensures { RunEnd (is_plain x y z) text.now from result }
{
    if text.len() <= from {
        return from;
    }
    runs::past(text, from, |b| is_plain(x, y, z, b))
}
