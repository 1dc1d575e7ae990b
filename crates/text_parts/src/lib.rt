// The text of a token in parts, one after another, without a buffer: the units of a string, and the lines of a doc comment.
#![tactic(auto)]

pub mod units; // units.rt: the units of a string
pub mod lines; // lines.rt: the lines of a block doc comment

// A part of a text: bytes of the slice that the text is read from, one character, or nothing. A unit that makes nothing is a part too, neither
// an error nor the end, so an Option of the other two would say less plainly what it is.
#[derive(Clone, Copy)]
pub enum Part {
    Bytes(usize, usize),
    Char(u32),
    Nothing,
}
