// Further examples: what the paper's own do not show. There is no code here: specs/ has the
// statements and proofs/ evaluates them.
#![tactic(auto)]
