// What the calls of the C interface are to do, and what lists of them do. There is no code here:
// specs/ has the definitions that the contracts of `quangevit` cite, and the claims over them.
#![tactic(auto)]
