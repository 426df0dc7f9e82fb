// Demand 3, and the demands on the grading as one theorem: statements in specs/, proofs in proofs/. There is no code here.
#![tactic(auto)]
