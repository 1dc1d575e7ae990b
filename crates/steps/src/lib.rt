// What a scanning step is: where the cursor stands, and the token that a step gives.
#![tactic(auto)]

use records::answers::TokenRecord;
use spans::Position;

pub mod made; // made.rt: the steps that give a token

// Where the cursor stands: outside of strings, inside a string with the place, line and column of its start, or behind EOF.
// They are three numbers, since with a Position in the case tokenising took 13 % more instructions.
#[derive(Clone, Copy)]
pub enum Within {
    Outside,
    Inside(usize, usize, usize),
    Ended,
}

#[derive(Clone, Copy)]
pub struct Cursor {
    pub at: Position,
    pub within: Within,
}

// How far the text buffer and the error buffer are filled.
#[derive(Clone, Copy)]
pub struct Fill {
    pub texts: usize,
    pub errors: usize,
}

// A token: the fields of its record, how far the two buffers are filled behind it, and whether the text ran out in it. The token counts
// either way, so the flag is no Option.
#[derive(Clone, Copy)]
pub struct Token {
    pub fields: TokenRecord,
    pub fill: Fill,
    pub ran_out: bool,
}

// A token and the next cursor, or the end: no Option of a pair, since document 01 names this form ("Each place and its form").
#[derive(Clone, Copy)]
pub enum Step {
    Token(Token, Cursor),
    End,
}
