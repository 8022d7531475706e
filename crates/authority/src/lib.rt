// Which trains may run: whether a train can be granted, on which track, and the granting. Inner
// parts of the dispatcher, whose callers meet what they ask.
#![tactic(auto)]

mod asking;
mod grantable;
mod granting;

pub use granting::{Progress, settle};
