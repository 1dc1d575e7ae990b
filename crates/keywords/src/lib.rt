// The kinds of names, by the tables of keywords.
#![tactic(auto)]

ghost use Rattle.std.specs.Prelude.{◌≡◌, ◌+◌, ◌≤◌, ◌<◌, length};
ghost use Rattle.rules.specs.Text.{same_text};
ghost use Rattle.rules.specs.Tables.{lookup_keyword};
ghost use Rattle.keyword_tables.specs.Keywords.{LONGEST, ROWS, COLUMNS, slot_of, row_of, slot_table, letters_of, keyword_entry, keyword_table};
ghost use Rattle.keywords.specs.Keywords.{pick};

use keyword_tables::{
    FIRST_LETTER, KIND_COLUMN, KeywordTable, LENGTH_COLUMN, LONGEST, SLOT_COUNT, SlotTable,
};
use rules::kinds;

// The multipliers of a slot. They were found by search, so that no two keywords share a slot.
const MIDDLE_FACTOR: usize = 2;

const LAST_FACTOR: usize = 33;

const LENGTH_FACTOR: usize = 42;

// The slot of a name.
fn slot_of(name: &[u8]) -> usize
    requires some { 0 < length name.now }
    requires len_bound { length name.now ≤ LONGEST }
    ensures { result ≡ slot_of name.now }
{
    let n = name.len();
    let first = usize::from(name[0]);
    let middle = usize::from(name[n / 2]);
    let last = usize::from(name[n - 1]);
    (first + MIDDLE_FACTOR * middle + LAST_FACTOR * last + LENGTH_FACTOR * n) % SLOT_COUNT
}

// The place i in a name of n characters; past its end the first place again.
fn pick_of(i: usize, n: usize) -> usize
    ensures { result ≡ pick i n }
{
    if i < n { i } else { 0 }
}

// The tables of keywords. They are made once and lent.
#[derive(Drop)]
pub struct Keywords {
    slots: SlotTable,
    rows: KeywordTable,
    ghost slots_made: { slots ≡ slot_table },
    ghost rows_made: { rows ≡ keyword_table },
}

impl Keywords {
    pub fn new() -> Self {
        Keywords {
            slots: keyword_tables::slot_table(),
            rows: keyword_tables::keyword_table(),
        }
    }

    // The row that the slot of a name leads to.
    fn row_of(&self, name: &[u8]) -> usize
        requires some { 0 < length name.now }
        requires len_bound { length name.now ≤ LONGEST }
        ensures value { result ≡ row_of (slot_of name.now) }
        ensures upper_bound { result < ROWS }
    {
        let slot = slot_of(name);
        usize::from(self.slots[slot])
    }

    // An entry of the table of keywords.
    fn entry(&self, row: usize, column: usize) -> u8
        requires row_bound { row < ROWS }
        requires column_bound { column < COLUMNS }
        ensures { result ≡ keyword_entry row column }
    {
        self.rows[row][column]
    }

    // Whether a name is the keyword of a row that has as many characters. It has no branch on the characters.
    fn is_keyword(&self, name: &[u8], row: usize) -> bool
        requires row_bound { row < ROWS }
        requires some { 0 < length name.now }
        requires row_len { length (letters_of row) ≡ length name.now }
        ensures { result ≡ same_text name.now (letters_of row) }
    {
        let mut same = true;
        for i in 0..LONGEST {
            let k = pick_of(i, name.len());
            same = (name[k] == self.entry(row, k + FIRST_LETTER)) & same;
        }
        same
    }

    // The kind of a name. That it is not empty is asked, here and above: the library has no slice that never is.
    pub fn name_kind(&self, name: &[u8]) -> u8
        requires { 0 < length name.now }
        ensures { result ≡ lookup_keyword name.now }
    {
        let n = name.len();
        if LONGEST < n {
            return kinds::IDENT;
        }
        let row = self.row_of(name);
        if usize::from(self.entry(row, LENGTH_COLUMN)) != n {
            return kinds::IDENT;
        }
        if self.is_keyword(name, row) {
            return self.entry(row, KIND_COLUMN);
        }
        kinds::IDENT
    }
}
