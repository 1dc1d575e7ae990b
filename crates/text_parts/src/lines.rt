// The text of a block doc comment: its cleaned lines, joined by line feeds. Places are those of the part of the script between the
// comment's marks.
ghost use Rattle.std.specs.Prelude.{◌≡◌};
ghost use Rattle.text_parts.specs.Lines.{GoodLine, GoodCursor, at_line, Passed, Begun, BehindLine, NextAt};

use super::Part;
use characters::LINE_FEED;
use doc_lines::Line;

// Where the walk over the lines stands: a line that has still to be given, if it is not empty, behind the line feeds that wait before
// it; and the place of the line after it, if there is one.
#[derive(Clone, Copy)]
pub struct Cursor {
    pub from: usize,
    pub to: usize,
    pub feeds: usize,
    pub next: Option<usize>,
}

fn at_line(l: Line, feeds: usize) -> Cursor
    ensures { result ≡ at_line l feeds }
{
    Cursor {
        from: l.from,
        to: l.to,
        feeds,
        next: l.next,
    }
}

// Past empty lines, to a line that is not empty or to the last one. The lines are no range and no iterator: each says where the next begins.
fn past_empty(part: &[u8], c: Cursor) -> Cursor
    requires { GoodLine part.now c }
    ensures { Passed part.now c result }
{
    let mut at = c;
    loop {
        if at.from < at.to {
            return at;
        }
        let Some(next) = at.next else {
            return at;
        };
        let feeds = docs::feeds_after(at.feeds, true);
        let l = doc_lines::line_at(part, next);
        at = at_line(l, feeds);
    }
}

// The cursor at the beginning of the text.
pub fn begin(part: &[u8]) -> Cursor
    ensures { Begun part.now result }
{
    let l = doc_lines::line_at(part, 0);
    past_empty(part, at_line(l, 0))
}

// The cursor behind the line that it stands at.
fn behind_line(part: &[u8], c: Cursor) -> Cursor
    requires { GoodCursor part.now c }
    ensures { BehindLine part.now c result }
{
    let Some(next) = c.next else {
        return Cursor {
            from: c.to,
            feeds: 0,
            ..c
        };
    };
    let l = doc_lines::line_at(part, next);
    past_empty(part, at_line(l, 1))
}

// The next part, a line feed that waits or the line, and the cursor behind it; none where the text is over.
pub fn next(part: &[u8], c: Cursor) -> Option<(Part, Cursor)>
    requires { GoodCursor part.now c }
    ensures { NextAt part.now c result }
{
    if c.from == c.to {
        return None;
    }
    if 0 < c.feeds {
        let feeds = c.feeds - 1;
        return Some((Part::Char(LINE_FEED), Cursor { feeds, ..c }));
    }
    Some((Part::Bytes(c.from, c.to), behind_line(part, c)))
}
