// Records read back at a place of a lent slice.
#![tactic(auto)]

pub mod errors; // errors.rt: error records
pub mod read; // read.rt: token records
