// The paper's examples, worked out over the definitions. There is no code here: specs/ has the
// statements and proofs/ evaluates them.
#![tactic(auto)]
