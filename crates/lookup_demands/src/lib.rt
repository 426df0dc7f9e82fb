// The demands on look-ups: statements in specs/, proofs in proofs/. There is no code here.
#![tactic(auto)]
