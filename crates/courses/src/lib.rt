// The rules of grading said by place, and demand 2 for the result records: statements in specs/, proofs in proofs/. There is no code here.
#![tactic(auto)]
