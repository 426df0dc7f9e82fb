// Failures, restarts and anchors over the records of a sheet, told by their places, and both halves of demand 3 over records: statements in
// specs/, proofs in proofs/. There is no code here.
#![tactic(auto)]
