// The fields of a record (document 01, "Records"): where each lies, and how long the parts are, in bytes.

// A span: six numbers of 4 bytes each. Where those after the first lie in it, and its length.
pub const END: usize = 4;

pub const START_LINE: usize = 8;

pub const START_COL: usize = 12;

pub const END_LINE: usize = 16;

pub const END_COL: usize = 20;

pub const SPAN: usize = 24;

// The head of every record: a kind and a span.
pub const HEAD: usize = 1 + SPAN;

// A text's offset and length, where the kind has them.
pub const TEXT_OFFSET: usize = HEAD;

pub const TEXT_LENGTH: usize = HEAD + 4;

pub const WITH_TEXT: usize = HEAD + 8;

// A code point, where the kind has one.
pub const CODE_POINT: usize = HEAD;

pub const WITH_CODE: usize = HEAD + 4;

// The longest record of a token, and of an error.
pub const LONGEST_TOKEN: usize = WITH_TEXT;

pub const LONGEST_ERROR: usize = WITH_CODE;
