// The tables of keywords. A name's slot comes from its first, middle and last character and its length; no two keywords share one.
#![tactic(auto)]

ghost use Rattle.std.specs.Prelude.{◌≡◌};
ghost use Rattle.keyword_tables.specs.Keywords.{slot_table, keyword_table};

pub const SLOT_COUNT: usize = 256;

pub type SlotTable = [u8; SLOT_COUNT];

// A row of the table of keywords: the length, then the letters, of which the longest keyword has LONGEST, and the kind. Row 0 is no
// keyword. Rows have one length, so that a name is compared without a branch on it.
pub const LENGTH_COLUMN: usize = 0;

pub const FIRST_LETTER: usize = 1;

pub const LONGEST: usize = 9;

pub const KIND_COLUMN: usize = FIRST_LETTER + LONGEST;

pub const COLUMNS: usize = KIND_COLUMN + 1;

pub const ROWS: usize = 60;

pub type KeywordTable = [[u8; COLUMNS]; ROWS];

// By slot, the row of the keyword that has it, or 0: row 0 has the length of no name, so that none needs no case of its own.
const SLOTS: SlotTable = [
    0, 0, 0, 0, 7, 39, 0, 26, 0, 0, 0, 57, 0, 0, 0, 0, 0, 0, 0, 0, 0, 58, 0, 13, 0, 0, 0, 0, 0, 0,
    0, 0, 16, 0, 0, 0, 0, 48, 0, 0, 0, 33, 0, 9, 0, 52, 0, 0, 0, 0, 0, 0, 0, 0, 53, 43, 0, 0, 0, 0,
    38, 0, 0, 0, 0, 55, 0, 0, 0, 0, 0, 0, 0, 0, 0, 0, 0, 4, 0, 0, 0, 0, 0, 0, 0, 0, 0, 0, 0, 42, 0,
    0, 0, 37, 0, 0, 0, 0, 0, 0, 0, 0, 0, 0, 2, 0, 0, 0, 0, 0, 25, 20, 0, 44, 0, 0, 14, 47, 24, 0,
    0, 0, 0, 0, 0, 0, 0, 0, 0, 23, 46, 35, 0, 21, 10, 27, 0, 29, 19, 0, 0, 0, 0, 0, 0, 0, 0, 0, 0,
    0, 0, 0, 28, 0, 0, 0, 0, 0, 0, 0, 40, 45, 1, 0, 0, 0, 0, 0, 36, 0, 0, 0, 54, 0, 0, 11, 0, 0, 0,
    0, 41, 0, 0, 0, 0, 0, 0, 0, 0, 0, 0, 0, 0, 31, 0, 56, 0, 0, 0, 15, 0, 18, 5, 0, 6, 8, 0, 0, 0,
    0, 0, 0, 0, 0, 0, 32, 0, 0, 30, 0, 0, 0, 0, 0, 0, 0, 0, 34, 0, 17, 0, 22, 51, 49, 0, 0, 0, 0,
    0, 0, 0, 0, 0, 0, 0, 50, 0, 0, 12, 0, 0, 0, 3, 0, 0, 0,
];

// The length, the letters and the kind of each keyword.
const KEYWORDS: KeywordTable = [
    [0, 0, 0, 0, 0, 0, 0, 0, 0, 0, 5], // no keyword
    [3, b'v', b'a', b'l', 0, 0, 0, 0, 0, 0, 6], // val
    [3, b'v', b'a', b'r', 0, 0, 0, 0, 0, 0, 7], // var
    [3, b'f', b'u', b'n', 0, 0, 0, 0, 0, 0, 8], // fun
    [6, b's', b't', b'r', b'u', b'c', b't', 0, 0, 0, 9], // struct
    [5, b'c', b'l', b'a', b's', b's', 0, 0, 0, 0, 10], // class
    [9, b'i', b'n', b't', b'e', b'r', b'f', b'a', b'c', b'e', 11], // interface
    [4, b'e', b'n', b'u', b'm', 0, 0, 0, 0, 0, 12], // enum
    [5, b'a', b'c', b't', b'o', b'r', 0, 0, 0, 0, 13], // actor
    [6, b's', b'e', b'a', b'l', b'e', b'd', 0, 0, 0, 14], // sealed
    [6, b'r', b'e', b't', b'u', b'r', b'n', 0, 0, 0, 15], // return
    [2, b'i', b'f', 0, 0, 0, 0, 0, 0, 0, 16], // if
    [4, b'e', b'l', b's', b'e', 0, 0, 0, 0, 0, 17], // else
    [4, b'w', b'h', b'e', b'n', 0, 0, 0, 0, 0, 18], // when
    [3, b'f', b'o', b'r', 0, 0, 0, 0, 0, 0, 19], // for
    [2, b'i', b'n', 0, 0, 0, 0, 0, 0, 0, 20], // in
    [5, b'w', b'h', b'i', b'l', b'e', 0, 0, 0, 0, 21], // while
    [2, b'd', b'o', 0, 0, 0, 0, 0, 0, 0, 22], // do
    [5, b'b', b'r', b'e', b'a', b'k', 0, 0, 0, 0, 23], // break
    [8, b'c', b'o', b'n', b't', b'i', b'n', b'u', b'e', 0, 24], // continue
    [3, b't', b'r', b'y', 0, 0, 0, 0, 0, 0, 25], // try
    [5, b'c', b'a', b't', b'c', b'h', 0, 0, 0, 0, 26], // catch
    [7, b'f', b'i', b'n', b'a', b'l', b'l', b'y', 0, 0, 27], // finally
    [5, b't', b'h', b'r', b'o', b'w', 0, 0, 0, 0, 28], // throw
    [2, b'i', b's', 0, 0, 0, 0, 0, 0, 0, 29], // is
    [2, b'a', b's', 0, 0, 0, 0, 0, 0, 0, 30], // as
    [6, b'p', b'u', b'b', b'l', b'i', b'c', 0, 0, 0, 31], // public
    [7, b'p', b'r', b'i', b'v', b'a', b't', b'e', 0, 0, 32], // private
    [9, b'p', b'r', b'o', b't', b'e', b'c', b't', b'e', b'd', 33], // protected
    [8, b'i', b'n', b't', b'e', b'r', b'n', b'a', b'l', 0, 34], // internal
    [4, b'n', b'u', b'l', b'l', 0, 0, 0, 0, 0, 35], // null
    [4, b't', b'h', b'i', b's', 0, 0, 0, 0, 0, 36], // this
    [5, b's', b'u', b'p', b'e', b'r', 0, 0, 0, 0, 37], // super
    [6, b'o', b'b', b'j', b'e', b'c', b't', 0, 0, 0, 38], // object
    [4, b'u', b'n', b'i', b't', 0, 0, 0, 0, 0, 39], // unit
    [9, b't', b'y', b'p', b'e', b'a', b'l', b'i', b'a', b's', 40], // typealias
    [8, b'o', b'v', b'e', b'r', b'r', b'i', b'd', b'e', 0, 41], // override
    [7, b's', b'u', b's', b'p', b'e', b'n', b'd', 0, 0, 42], // suspend
    [6, b'i', b'n', b'l', b'i', b'n', b'e', 0, 0, 0, 43], // inline
    [5, b'c', b'o', b'n', b's', b't', 0, 0, 0, 0, 44], // const
    [8, b'c', b'o', b'm', b'p', b't', b'i', b'm', b'e', 0, 45], // comptime
    [5, b'd', b'e', b'f', b'e', b'r', 0, 0, 0, 0, 46], // defer
    [6, b'e', b'x', b't', b'e', b'r', b'n', 0, 0, 0, 47], // extern
    [6, b'i', b'm', b'p', b'o', b'r', b't', 0, 0, 0, 48], // import
    [7, b'p', b'a', b'c', b'k', b'a', b'g', b'e', 0, 0, 49], // package
    [4, b'l', b'a', b'z', b'y', 0, 0, 0, 0, 0, 50], // lazy
    [8, b'l', b'a', b't', b'e', b'i', b'n', b'i', b't', 0, 51], // lateinit
    [4, b'd', b'a', b't', b'a', 0, 0, 0, 0, 0, 52], // data
    [5, b'v', b'a', b'l', b'u', b'e', 0, 0, 0, 0, 53], // value
    [5, b'a', b'w', b'a', b'i', b't', 0, 0, 0, 0, 55], // await
    [2, b't', b'o', 0, 0, 0, 0, 0, 0, 0, 54], // to
    [5, b'a', b's', b'y', b'n', b'c', 0, 0, 0, 0, 56], // async
    [6, b's', b'e', b'l', b'e', b'c', b't', 0, 0, 0, 57], // select
    [3, b'b', b'o', b'x', 0, 0, 0, 0, 0, 0, 62], // box
    [4, b'w', b'e', b'a', b'k', 0, 0, 0, 0, 0, 63], // weak
    [6, b'n', b'a', b't', b'i', b'v', b'e', 0, 0, 0, 68], // native
    [4, b'U', b'n', b'i', b't', 0, 0, 0, 0, 0, 39], // Unit
    [4, b't', b'r', b'u', b'e', 0, 0, 0, 0, 0, 4], // true
    [5, b'f', b'a', b'l', b's', b'e', 0, 0, 0, 0, 4], // false
    [2, b'i', b'n', 0, 0, 0, 0, 0, 0, 0, 20], // in
];

// The table of slots. It is made once and lent, as is the table of keywords.
pub fn slot_table() -> SlotTable
    ensures { result ≡ slot_table }
{
    SLOTS
}

pub fn keyword_table() -> KeywordTable
    ensures { result ≡ keyword_table }
{
    KEYWORDS
}
