// The kinds of tokens that the code names: the place in `TokenKind` (token.rs, lines 6 to 158), from 0. The other keywords and marks
// stand in tables. They are numbers and no enum, since a record holds the number and the tables are arrays of such numbers (document 01,
// "Each place and its form").
pub const INT_LITERAL: u8 = 0;

pub const FLOAT_LITERAL: u8 = 1;

pub const STRING_LITERAL: u8 = 2;

pub const CHAR_LITERAL: u8 = 3;

pub const IDENT: u8 = 5;

pub const UNIT: u8 = 39;

pub const LT_LT: u8 = 94;

pub const GT_GT: u8 = 95;

pub const GT_GT_GT: u8 = 96;

pub const DOUBLE_DOT_OP: u8 = 116;

pub const TRIPLE_DOT_OP: u8 = 117;

pub const STRING_INTERP_START: u8 = 121;

pub const DOC_COMMENT: u8 = 123;

pub const EOF: u8 = 124;

pub const ERROR: u8 = 125;
