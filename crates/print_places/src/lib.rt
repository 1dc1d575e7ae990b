// What was printed of a script, by places: a print needs no lines and columns.
#![tactic(auto)]

// An element that was written: the place behind it, and the place behind its bytes.
#[derive(Clone, Copy)]
pub struct Written {
    pub at: usize,
    pub out: usize,
}

// What answers in place of what was written: an error is recorded in it.
#[derive(Clone, Copy)]
pub struct Flawed;
