// Walks over lines to a closing mark. None takes the mark.
ghost use Rattle.std.specs.Prelude.{◌≡◌, [], ◌∷◌};
ghost use Rattle.bridge.specs.Bridge.{Within, Fits, Letter};
ghost use Rattle.walks.specs.Walks.{UpToAt, UpToTold, star_slash, quotes, behind_mark};

use super::{Closing, ahead};
use spans::Position;

// Up to the next place where a mark stands, which begins with `first`, or the end. Plain characters are passed together.
fn to_mark<F: Fn(usize) -> bool>(text: &[u8], p: Position, first: u8, stands: F) -> Closing
    requires within { Within text.now p }
    requires letter { Letter first }
    requires callable { F.IsAlwaysCallable stands }
    ensures { UpToTold (F.post stands) first text.now p result }
{
    let mut at = p;
    loop {
        at = bridge::past_plain(text, at, first, first, first);
        if stands(at.offset) {
            return Closing { at, found: true };
        }
        let Some((_, next)) = bridge::look(text, at) else {
            return Closing { at, found: false };
        };
        at = next;
    }
}

// Up to the next `*/`, or the end. This and the two below are the walk above, each with its mark.
pub fn to_pair(text: &[u8], p: Position) -> Closing
    requires { Within text.now p }
    ensures { UpToAt star_slash text.now p result }
{
    to_mark(text, p, b'*', |at| ahead::stands_at(text, at, b"*/"))
}

// Up to the next three quotes, or the end.
pub fn to_quotes(text: &[u8], p: Position) -> Closing
    requires { Within text.now p }
    ensures { UpToAt quotes text.now p result }
{
    to_mark(text, p, b'"', |at| ahead::stands_at(text, at, b"\"\"\""))
}

// Up to the next byte of this value, or the end.
pub fn to_byte(text: &[u8], p: Position, stop: u8) -> Closing
    requires within { Within text.now p }
    requires letter { Letter stop }
    ensures { UpToAt (stop ∷ []) text.now p result }
{
    to_mark(text, p, stop, |at| bridge::is_at(text, at, stop))
}

// The position behind a closing mark of n characters, or where the text ran out.
pub fn behind_mark(c: Closing, n: usize) -> Position
    requires { Fits c.at n }
    ensures { result ≡ behind_mark c n }
{
    let at = c.at;
    if c.found {
        return bridge::along(at, n);
    }
    at
}
