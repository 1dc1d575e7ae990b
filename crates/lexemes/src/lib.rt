// Lexemes: what the scanners of words hand back.
#![tactic(auto)]

// A word: its kind, how many characters it has, and how many characters behind its start its span ends. The last is a number and no flag:
// a number's span ends at its length, a name's one before it, and a lone mark's at 0.
#[derive(Clone, Copy)]
pub struct Word {
    pub kind: u8,
    pub length: usize,
    pub extent: usize,
}
