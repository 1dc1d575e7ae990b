// The office print of a script stands in specs/, the theorems about it in proofs/. The code here is the name of a number that both speak
// of.
#![tactic(auto)]

// A print has at most so many bytes for each byte of its script.
pub const GROWTH: usize = 6;
