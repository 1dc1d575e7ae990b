// Order 3 of document 02 stands in specs/, the theorem about tokenising in proofs/. There is no code: tokenising writes the texts.
#![tactic(auto)]
