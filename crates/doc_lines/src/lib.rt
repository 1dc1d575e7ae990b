// The lines of documentation comments (lexer.rs, lines 931 to 983), as places in the part of the script between a comment's marks.
#![tactic(auto)]

ghost use Rattle.std.specs.Prelude.{◌≡◌, true, not, ◌≤◌, ltb, length, if◌then◌else◌};
ghost use Rattle.characters.specs.Space.{is_white};
ghost use Rattle.rules.specs.Docs.{trim_end, clean_line};
ghost use Rattle.doc_lines.specs.Lines.{NextAt, SkippedTold, in_line, is_blank, is_ink, Inked, LineAt, LineTold};

use characters::{Decoded, LINE_FEED, space, utf8};

const STAR: u32 = b'*' as u32;

// A line is part[from..to]. The next one begins at `next`, if there is one.
#[derive(Clone, Copy)]
pub struct Line {
    pub from: usize,
    pub to: usize,
    pub next: Option<usize>,
}

// What stands at a place of the part: a character, and the place after it; or nothing.
fn char_at(part: &[u8], at: usize) -> Option<(u32, usize)>
    ensures { NextAt part.now at result }
{
    if part.len() <= at {
        return None;
    }
    let b = part[at];
    if b < 0x80 {
        return Some((u32::from(b), at + 1));
    }
    let d = sequences::decode(part, at);
    match d {
        Decoded::Code(c, n) => Some((c, at + n)),
        Decoded::Bad => None,
        Decoded::End => None,
    }
}

// Whether a character ends a line of a block.
fn ends_line(c: u32) -> bool
    ensures { result ≡ not (in_line true c) }
{
    c == LINE_FEED
}

// White space of such a line.
fn is_blank(c: u32) -> bool
    ensures { result ≡ is_blank true c }
{
    !ends_line(c) && space::is_white(c)
}

// An ASCII character that is no white space.
fn is_ink(b: u8) -> bool
    ensures { result ≡ is_ink b }
{
    utf8::within(0x21, 0x7F, b)
}

// Past such characters.
fn past_ink(part: &[u8], from: usize) -> usize
    requires { from ≤ length part.now }
    ensures { Inked part.now from result }
{
    runs::past(part, from, is_ink)
}

// Past the characters from a place on that pass a test. They are of one to four bytes, so no iterator of bytes gives them, and the walk
// answers a place.
pub fn past_chars<F: Fn(u32) -> bool>(part: &[u8], from: usize, test: F) -> usize
    requires inside { from ≤ length part.now }
    requires callable { F.IsAlwaysCallable test }
    ensures inside { result ≤ length part.now }
    ensures passed { SkippedTold (F.post test) part.now from result }
{
    let mut place = from;
    while let Some((c, next)) = char_at(part, place) {
        if !test(c) {
            return place;
        }
        place = next;
    }
    place
}

// Where the text ends that is kept of a line: a character that is no white space moves it to the place after itself.
fn kept_end(c: u32, to: usize, next: usize) -> usize
    ensures { result ≡ (if is_white c then to else next) }
{
    if space::is_white(c) { to } else { next }
}

// Where the text ends that is kept, behind ASCII characters from `at` to `q` that are no white space.
fn ink_end(at: usize, q: usize, to: usize) -> usize
    ensures { result ≡ (if ltb at q then q else to) }
{
    if at < q { q } else { to }
}

// The line from a place on, without white space at its end. `ends` says which characters end a line. It goes by characters, and passes at
// once the bytes that neither end a line nor are white space, so `for` would not go through it. What is promised is for an `ends` that the
// line feed alone passes, or nothing: a line of a block, or the whole part.
pub fn trimmed_line<E: Fn(u32) -> bool>(part: &[u8], from: usize, ends: E) -> Line
    requires inside { from ≤ length part.now }
    requires callable { E.IsAlwaysCallable ends }
    ensures { LineTold (E.post ends) trim_end part.now from result }
{
    let mut at = from;
    let mut to = from;
    loop {
        let q = past_ink(part, at);
        let end = ink_end(at, q, to);
        let Some((c, next)) = char_at(part, q) else {
            return Line {
                from,
                to: end,
                next: None,
            };
        };
        if ends(c) {
            return Line {
                from,
                to: end,
                next: Some(next),
            };
        }
        to = kept_end(c, end, next);
        at = next;
    }
}

// The line of a block that begins at a place, cleaned.
pub fn line_at(part: &[u8], at: usize) -> Line
    requires { at ≤ length part.now }
    ensures { LineAt clean_line true part.now at result }
{
    let a = past_chars(part, at, is_blank);
    let b = past_chars(part, a, |c| c == STAR);
    let from = past_chars(part, b, is_blank);
    trimmed_line(part, from, ends_line)
}
