// There is no code here. specs/ say which lists a reader of the buffers meets; proofs/ hold that reading what was written gives it
// back.
#![tactic(auto)]
