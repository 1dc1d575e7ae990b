// White space and comments passed by their places alone: a print needs no lines and columns.
#![tactic(auto)]

ghost use Rattle.std.specs.Prelude.{◌≡◌};
ghost use Rattle.bridge.specs.Bridge.{placed, Within};
ghost use Rattle.print_places.specs.Places as places;
ghost use Rattle.print_skips.specs.Gaps.{SomeWhite, BlanksTo, WhiteTo, CommentAt, SkippedAt};

use characters::space;
use classes::Classes;
use print_places::Flawed;
use walks::walk;

// Where white space ends: the place, and the class of the byte there.
#[derive(Clone, Copy)]
pub struct Stop {
    pub at: usize,
    pub class: u8,
}

// Past one character of white space, also beyond ASCII; it stays only where there is none, and the walk asks whether it moved: an Option
// would be taken apart for the same test.
fn past_wide(text: &[u8], from: usize) -> usize
    requires { Within text.now (placed from) }
    ensures { SomeWhite text.now from result }
{
    let Some((c, q)) = bridge::look(text, bridge::at_place(from)) else {
        return from;
    };
    if space::is_white(c) {
        return q.offset;
    }
    from
}

// Past white space of one byte. It counts its place by itself, since it answers the class behind it too: runs::past would have that byte
// looked at twice.
fn past_blanks(classes: &Classes, text: &[u8], from: usize) -> Stop
    requires { Within text.now (placed from) }
    ensures { BlanksTo text.now from result }
{
    let mut at = from;
    let mut class = classes.at(text, at);
    while class == classes::SPACE {
        at += 1;
        class = classes.at(text, at);
    }
    Stop { at, class }
}

// Past white space.
fn past_white(classes: &Classes, text: &[u8], from: usize) -> Stop
    requires { Within text.now (placed from) }
    ensures { WhiteTo text.now from result }
{
    let mut at = from;
    loop {
        let b = past_blanks(classes, text, at);
        if b.class != classes::OTHER {
            return b;
        }
        let q = past_wide(text, b.at);
        if q == b.at {
            return b;
        }
        at = q;
    }
}

// The place behind the comment at a place; none where no comment stands there.
fn comment_at(text: &[u8], at: usize) -> Result<Option<usize>, Flawed>
    requires { Within text.now (placed at) }
    ensures { CommentAt text.now at result }
{
    if skipping::line_at(text, at) {
        let c = walk::to_byte(text, bridge::along(bridge::at_place(at), 2), b'\n');
        let q = c.at;
        return Ok(Some(q.offset));
    }
    if skipping::block_at(text, at) {
        let c = walk::to_pair(text, bridge::along(bridge::at_place(at), 2));
        let open = !c.found;
        if open {
            return Err(Flawed);
        }
        let q = walk::behind_mark(c, 2);
        return Ok(Some(q.offset));
    }
    Ok(None)
}

// Past white space and comments.
pub fn skip(classes: &Classes, text: &[u8], from: usize) -> Result<Stop, Flawed>
    requires { Within text.now (placed from) }
    ensures { SkippedAt text.now from result }
{
    let mut next = from;
    loop {
        let w = past_white(classes, text, next);
        if w.class != classes::SLASH {
            return Ok(w);
        }
        let Some(end) = comment_at(text, w.at)? else {
            return Ok(w);
        };
        next = end;
    }
}
