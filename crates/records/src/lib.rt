// Token and error records in lent buffers (document 01, "Records"): what the kind of a record fixes, and what is read of one. specs/ say
// how records lie in the buffers, and what a reader answers.
#![tactic(auto)]

pub mod answers; // answers.rt: what is read
pub mod errors; // errors.rt: the kinds of errors
pub mod fields; // fields.rt: where the fields of a record lie
pub mod kinds; // kinds.rt: what a kind fixes
