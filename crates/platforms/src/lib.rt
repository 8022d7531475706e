// Examples with tracks. There is no code here: specs/ has the statements and proofs/ evaluates them.
#![tactic(auto)]
