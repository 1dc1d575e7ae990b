// The classes of the ASCII characters, by what begins with one.
#![tactic(auto)]

ghost use Rattle.std.specs.Prelude.{◌≡◌, get_or};
ghost use Rattle.classes.specs.Classes.{class_table, class_of};

// 0 is a character that begins nothing, or one beyond ASCII. 1 to LAST_MARK are the marks, in the order
// = + - > < | & : . ? ! * / % ( ) { } [ ] , ; @ # ^
// They are numbers and no enum: a mark's class is its row and its column in the table of marks (document 01, "Each place and its form").
pub const OTHER: u8 = 0;

pub const SLASH: u8 = 13;

pub const LAST_MARK: u8 = 25;

pub const SPACE: u8 = 26;

pub const APOSTROPHE: u8 = 27;

pub const QUOTE: u8 = 28;

pub const DOLLAR: u8 = 29;

pub const LETTER: u8 = 30;

pub const DIGIT: u8 = 31;

// How many characters ASCII has: each has an entry.
pub const ASCII: usize = 128;

// The first byte that is no such character.
const BEYOND_ASCII: u8 = ASCII as u8;

const CLASSES: [u8; ASCII] = [
    0, 0, 0, 0, 0, 0, 0, 0, 0, 26, 26, 26, 26, 26, 0, 0, 0, 0, 0, 0, 0, 0, 0, 0, 0, 0, 0, 0, 0, 0,
    0, 0, 26, 11, 28, 24, 29, 14, 7, 27, 15, 16, 12, 2, 21, 3, 9, 13, 31, 31, 31, 31, 31, 31, 31,
    31, 31, 31, 8, 22, 5, 1, 4, 10, 23, 30, 30, 30, 30, 30, 30, 30, 30, 30, 30, 30, 30, 30, 30, 30,
    30, 30, 30, 30, 30, 30, 30, 30, 30, 30, 30, 19, 0, 20, 25, 30, 0, 30, 30, 30, 30, 30, 30, 30,
    30, 30, 30, 30, 30, 30, 30, 30, 30, 30, 30, 30, 30, 30, 30, 30, 30, 30, 30, 17, 6, 18, 0, 0,
];

// The table of classes. It is made once and lent: a constant is made anew wherever it is named.
#[derive(Clone, Copy)]
pub struct Classes {
    table: [u8; ASCII],
    ghost made: { table ≡ class_table },
}

impl Classes {
    pub fn new() -> Self {
        Classes { table: CLASSES }
    }

    // The class of a byte.
    pub fn of(&self, b: u8) -> u8
        ensures { result ≡ class_of b }
    {
        if b < BEYOND_ASCII {
            return self.table[usize::from(b)];
        }
        OTHER
    }

    // The class of the byte at a place; OTHER past the end.
    pub fn at(&self, text: &[u8], at: usize) -> u8
        ensures { result ≡ class_of (get_or text.now at 0) }
    {
        self.of(characters::utf8::byte_at(text, at))
    }
}
