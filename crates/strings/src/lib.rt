// Ordinary strings, one piece at a time: its text and errors are written while it is scanned.
#![tactic(auto)]

pub mod pieces; // pieces.rt: one step inside a string

use interpolations::Given;
use spans::Position;

// A step inside a string: a token; or the string is over without one, and the position behind its closing quote, with how many bytes
// of the errors are used then. It is no Result: neither case is an error, and their names say what they hold.
#[derive(Clone, Copy)]
pub enum Piece {
    Token(Given),
    Over(Position, usize),
}
