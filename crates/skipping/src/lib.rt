// White space and the comments that are skipped.
#![tactic(auto)]

ghost use Rattle.std.specs.Prelude.{◌≡◌, ◌≤◌, length, get_or};
ghost use Rattle.characters.specs.Utf8.{chars_at};
ghost use Rattle.rules.specs.Text.{ch};
ghost use Rattle.rules.specs.Scan.{run};
ghost use Rattle.rules.specs.Lexer as rules;
ghost use Rattle.bridge.specs.Bridge.{Within, Cut, exactly};
ghost use Rattle.walks.specs.Openings.{opens_line, opens_block};
ghost use Rattle.skipping.specs.Skips.{SomeWhite, WhiteAt, CommentAt, SkippedAt};
ghost use Rattle.output.specs.Writing.{PLACES};

use characters::{LINE_FEED, space, utf8};
use records::errors::ErrorKind;
use spans::Position;
use walks::{Closing, ahead, error, walk};

// The column behind a line feed that is skipped, as in the Rust (lexer.rs, lines 350 to 355).
const SKIPPED_LINE_COLUMN: usize = 2;

// The position behind what was skipped, the place after its errors, and whether the text ran out in it. The position counts either
// way, so the flag is no Option.
#[derive(Clone, Copy)]
pub struct Skipped {
    pub at: Position,
    pub errors: usize,
    pub ran_out: bool,
}

// The position behind the white space c at p, where q is the position behind it as in any other place.
fn behind_white(p: Position, c: u32, q: Position) -> Position
    requires { q ≡ rules.advance p c }
    ensures { result ≡ rules.skip p c }
{
    if c == LINE_FEED {
        return Position {
            offset: q.offset,
            line: q.line,
            col: SKIPPED_LINE_COLUMN,
        };
    }
    q
}

// The end of the blanks at a place.
fn past_blanks(text: &[u8], from: usize) -> usize
    requires { from ≤ length text.now }
    ensures { Cut text.now from (run (exactly (ch " ")) (chars_at text.now from)) result }
{
    runs::past(text, from, |b| b == b' ')
}

// Past the white space beyond ASCII at a position.
fn skip_wide(text: &[u8], p: Position) -> Position
    requires within { Within text.now p }
    requires bound { 0x80 ≤ get_or text.now p.offset 0 }
    ensures { SomeWhite text.now p result }
{
    let mut at = p;
    loop {
        if utf8::byte_at(text, at.offset) < 0x80 {
            return at;
        }
        let Some((c, q)) = bridge::look(text, at) else {
            return at;
        };
        if !space::is_white(c) {
            return at;
        }
        at = q;
    }
}

// Past some of the white space at a position: all that is beyond ASCII, or one character; none only where there is none. The
// walk asks whether the position moved: an Option would be taken apart for the same test.
fn skip_some(text: &[u8], p: Position) -> Position
    requires { Within text.now p }
    ensures { SomeWhite text.now p result }
{
    let b = utf8::byte_at(text, p.offset);
    if 0x80 <= b {
        return skip_wide(text, p);
    }
    let c = u32::from(b);
    if !space::is_white(c) {
        return p;
    }
    let q = bridge::past(p, c, 1);
    behind_white(p, c, q)
}

// Past white space. Blanks are passed together.
fn skip_white(text: &[u8], p: Position) -> Position
    requires { Within text.now p }
    ensures { WhiteAt text.now p result }
{
    let mut at = p;
    loop {
        let from = at.offset;
        let to = past_blanks(text, from);
        at = bridge::along(at, to - from);
        let q = skip_some(text, at);
        if q.offset == to {
            return at;
        }
        at = q;
    }
}

// Whether a comment to the end of its line begins at a place.
pub fn line_at(text: &[u8], at: usize) -> bool
    ensures { result ≡ opens_line (chars_at text.now at) }
{
    ahead::stands_at(text, at, b"//") && !bridge::is_at(text, at + 2, b'/')
}

// Whether a block comment begins at a place.
pub fn block_at(text: &[u8], at: usize) -> bool
    ensures { result ≡ opens_block (chars_at text.now at) }
{
    ahead::stands_at(text, at, b"/*")
        && (!bridge::is_at(text, at + 2, b'*') || bridge::is_at(text, at + 3, b'/'))
}

// The comment at a position: the position behind it, and whether it is closed; or none.
fn comment_at(text: &[u8], p: Position) -> Option<Closing>
    requires { Within text.now p }
    ensures { CommentAt text.now p result }
{
    if line_at(text, p.offset) {
        let c = walk::to_byte(text, bridge::along(p, 2), b'\n');
        let at = c.at;
        return Some(Closing { at, found: true });
    }
    if block_at(text, p.offset) {
        let c = walk::to_pair(text, bridge::along(p, 2));
        let at = walk::behind_mark(c, 2);
        let found = c.found;
        return Some(Closing { at, found });
    }
    None
}

// Past white space and comments. The error of a comment that is not closed is written.
pub fn skip(text: &[u8], p: Position, errors: &mut [u8], used: usize) -> Skipped
    requires within { Within text.now p }
    requires used_bound { used ≤ PLACES }
    ensures { SkippedAt text.now p errors.old errors.new used result }
{
    let mut at = p;
    loop {
        at = skip_white(text, at);
        let Some(c) = comment_at(text, at) else {
            return Skipped {
                at,
                errors: used,
                ran_out: false,
            };
        };
        let end = c.at;
        if !c.found {
            let place = error::put_open(
                errors,
                used,
                false,
                ErrorKind::UnterminatedBlockComment,
                at,
                end,
            );
            return Skipped {
                at: end,
                errors: place,
                ran_out: true,
            };
        }
        at = end;
    }
}
