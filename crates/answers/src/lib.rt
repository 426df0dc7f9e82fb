// What any bytes are answered: demand 1, the grounds of demand 2, the layout of the bytes in numbers. Statements in specs/, proofs in
// proofs/; there is no code here.
#![tactic(auto)]
