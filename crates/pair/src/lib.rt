// Cab and desk taken together: the box, its units and the channel between them, and the claims over
// both ends. No code.
#![tactic(auto)]
