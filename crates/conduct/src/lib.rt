// How the box conducts itself: the claims on one frame, and on lists of frames beside demand 3. No
// code.
#![tactic(auto)]
