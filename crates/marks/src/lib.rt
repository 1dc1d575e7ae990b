// Delimiters and marks.
#![tactic(auto)]

ghost use Rattle.std.specs.Prelude.{◌≡◌, ◌+◌, ◌≤◌, get_or};
ghost use Rattle.characters.specs.Utf8.{chars_at};
ghost use Rattle.rules.specs.Marks.{parse_mark};
ghost use Rattle.lexemes.specs.Words.{WordAt};
ghost use Rattle.classes.specs.Classes.{LAST_MARK, class_of};
ghost use Rattle.marks.specs.Marks.{LAST_COLUMN, char_of, column_of, pair_kind, third_kind, mark_table};

use classes::{Classes, LAST_MARK};
use lexemes::Word;
use rules::kinds;

// The first class of the marks that are part of no longer one: `(`.
const DELIMITER: u8 = 15;

// The class of the last mark that can be second: `!`.
const LAST_COLUMN: u8 = 11;

// A row for each first mark, in the order of the classes from 1 on, and a column for each next mark, in the same order; column 0 is
// any other next character, or none.
pub const ROWS: usize = LAST_MARK as usize;

pub const COLUMNS: usize = LAST_COLUMN as usize + 1;

// The kinds of the marks.
const MARKS: [[u8; COLUMNS]; ROWS] = [
    [76, 82, 76, 76, 99, 76, 76, 76, 76, 76, 76, 76], // =
    [69, 77, 74, 69, 69, 69, 69, 69, 69, 69, 69, 69], // +
    [70, 78, 70, 75, 98, 70, 70, 70, 70, 70, 70, 70], // -
    [85, 87, 85, 85, 95, 85, 85, 85, 85, 85, 85, 85], // >
    [84, 86, 84, 84, 84, 94, 84, 84, 84, 84, 84, 84], // <
    [92, 92, 92, 92, 92, 92, 89, 92, 92, 92, 92, 92], // |
    [91, 91, 91, 91, 91, 91, 91, 88, 91, 91, 91, 91], // &
    [113, 114, 113, 113, 113, 113, 113, 113, 104, 113, 113, 113], // :
    [115, 115, 115, 115, 115, 115, 115, 115, 115, 116, 115, 115], // .
    [118, 118, 118, 118, 118, 118, 118, 118, 118, 118, 119, 118], // ?
    [90, 83, 90, 90, 90, 90, 90, 90, 90, 90, 90, 97], // !
    [71, 79, 71, 71, 71, 71, 71, 71, 71, 71, 71, 71], // *
    [72, 80, 72, 72, 72, 72, 72, 72, 72, 72, 72, 72], // /
    [73, 81, 73, 73, 73, 73, 73, 73, 73, 73, 73, 73], // %
    [105, 105, 105, 105, 105, 105, 105, 105, 105, 105, 105, 105], // (
    [106, 106, 106, 106, 106, 106, 106, 106, 106, 106, 106, 106], // )
    [107, 107, 107, 107, 107, 107, 107, 107, 107, 107, 107, 107], // {
    [108, 108, 108, 108, 108, 108, 108, 108, 108, 108, 108, 108], // }
    [109, 109, 109, 109, 109, 109, 109, 109, 109, 109, 109, 109], // [
    [110, 110, 110, 110, 110, 110, 110, 110, 110, 110, 110, 110], // ]
    [111, 111, 111, 111, 111, 111, 111, 111, 111, 111, 111, 111], // ,
    [112, 112, 112, 112, 112, 112, 112, 112, 112, 112, 112, 112], // ;
    [102, 102, 102, 102, 102, 102, 102, 102, 102, 102, 102, 102], // @
    [103, 103, 103, 103, 103, 103, 103, 103, 103, 103, 103, 103], // #
    [93, 93, 93, 93, 93, 93, 93, 93, 93, 93, 93, 93], // ^
];

// The column of a next character's class.
fn column_of(class: u8) -> usize
    ensures value { result ≡ column_of class }
    ensures upper_bound { result ≤ LAST_COLUMN }
{
    if class <= LAST_COLUMN {
        return usize::from(class);
    }
    0
}

// The kind where a third mark equals the second.
fn third_kind(kind: u8) -> Option<u8>
    ensures { result ≡ third_kind kind }
{
    match kind {
        kinds::LT_LT => Some(kinds::ERROR),
        kinds::GT_GT => Some(kinds::GT_GT_GT),
        kinds::DOUBLE_DOT_OP => Some(kinds::TRIPLE_DOT_OP),
        _ => None,
    }
}

// The table of marks, and the classes by which the marks are told. It is made once and lent.
#[derive(Clone, Copy)]
pub struct Marks {
    pub classes: Classes,
    kinds: [[u8; COLUMNS]; ROWS],
    ghost made: { kinds ≡ mark_table },
}

impl Marks {
    pub fn new() -> Self {
        Marks {
            classes: Classes::new(),
            kinds: MARKS,
        }
    }

    // The kind of the mark whose first character is of the class first, and whose next character is of the class next.
    fn mark_kind(&self, first: u8, next: u8) -> u8
        requires le_first { 1 ≤ first }
        requires first_bound { first ≤ LAST_MARK }
        ensures { result ≡ pair_kind (char_of first) (char_of (column_of next)) }
    {
        let row = usize::from(first - 1);
        let column = column_of(next);
        self.kinds[row][column]
    }

    // The mark at a place, of the class first, which may have two or three characters: a lone one has no extent.
    fn longer_mark(&self, text: &[u8], at: usize, first: u8) -> Word
        requires first_value { first ≡ class_of (get_or text.now at 0) }
        requires le_first { 1 ≤ first }
        requires first_bound { first ≤ LAST_MARK }
        ensures { WordAt text.now at (parse_mark (get_or text.now at 0) (chars_at text.now (at + 1))) result.kind result.length result.extent }
    {
        let lone = self.mark_kind(first, 0);
        let kind = self.mark_kind(first, self.classes.at(text, at + 1));
        if kind == lone {
            return Word {
                kind,
                length: 1,
                extent: 0,
            };
        }
        let pair = Word {
            kind,
            length: 2,
            extent: 2,
        };
        let Some(third) = third_kind(kind) else {
            return pair;
        };
        let second = characters::utf8::byte_at(text, at + 1);
        if bridge::is_at(text, at + 2, second) {
            return Word {
                kind: third,
                length: 3,
                extent: 3,
            };
        }
        pair
    }

    // The mark at a place, of the class first, which the caller's tests have told to be a mark's: that is asked, and no type says it.
    // Those from the class DELIMITER on stand alone, whatever follows.
    pub fn mark_at(&self, text: &[u8], at: usize, first: u8) -> Word
        requires first_value { first ≡ class_of (get_or text.now at 0) }
        requires le_first { 1 ≤ first }
        requires first_bound { first ≤ LAST_MARK }
        ensures { WordAt text.now at (parse_mark (get_or text.now at 0) (chars_at text.now (at + 1))) result.kind result.length result.extent }
    {
        if DELIMITER <= first {
            let kind = self.mark_kind(first, 0);
            return Word {
                kind,
                length: 1,
                extent: 0,
            };
        }
        self.longer_mark(text, at, first)
    }
}
