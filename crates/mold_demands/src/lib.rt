// The demands on the grading of mold sheets. Statements in specs/, proofs in proofs/; there is no code here.
#![tactic(auto)]
