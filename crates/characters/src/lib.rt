// Characters of a text: UTF-8 by RFC 3629, white space.
#![tactic(auto)]

pub mod utf8; // utf8.rt: a byte at a place, one character of a text that is UTF-8
pub mod space; // space.rt: white space

// The line feed, as a character.
pub const LINE_FEED: u32 = b'\n' as u32;

// What stands at a place of a text. Each of the three cases has a meaning of its own: an Option in a Result would say them less plainly.
#[derive(Clone, Copy)]
pub enum Decoded {
    // The code point and the number of bytes.
    Code(u32, usize),
    Bad,
    End,
}
