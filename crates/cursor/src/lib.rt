// Where a scanner stands in a text: a cursor. specs/ say what the rules still give from a cursor on, and so what a scanning step
// promises; proofs/ hold the laws of such steps.
#![tactic(auto)]

use spans::Position;

// steps::Cursor has a third state, behind EOF: with one type for both, the contract of each piece of a string would have to rule it out.
#[derive(Clone, Copy)]
pub enum Cursor {
    // Outside of strings.
    Outside(Position),
    // Inside a string: where it began, and where the scanner stands.
    InString(Position, Position),
}
