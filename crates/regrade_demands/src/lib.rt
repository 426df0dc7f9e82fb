// The demands on regradings. Statements in specs/, proofs in proofs/; there is no code here.
#![tactic(auto)]
