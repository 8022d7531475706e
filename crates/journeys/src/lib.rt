// Examples of cab and desk taken together: journeys over a channel that loses, repeats, delays and
// reorders frames. No code.
#![tactic(auto)]
