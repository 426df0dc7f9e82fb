// Sheets that are alike but for their counts. Statements in specs/, proofs in proofs/; there is no code here.
#![tactic(auto)]
