// The lexical rules stand in specs/, the theorems about them in proofs/. The code here is the names of the numbers that both speak
// of.
#![tactic(auto)]

pub mod kinds; // kinds.rt: the kinds of tokens

// The bytes that a script may have at most, its mark counted.
pub const LIMIT: usize = 1048576;
