// Examples with high journal counts. There is no code here: specs/ has the statements and proofs/
// evaluates them.
#![tactic(auto)]
