// For sheets of any kind: a table of grounds and which of its rows is returned; the answer, and what is left of the result buffer.
// Statements in specs/, proofs in proofs/; there is no code here.
#![tactic(auto)]
