// Sheets in bytes with the answer and the results that they get, proved by computing: statements in specs/, proofs in proofs/. There is no code here.
#![tactic(auto)]
