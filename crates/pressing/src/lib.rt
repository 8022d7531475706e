// The driver unit's buttons: it asks for each move, departs, arrives and reports the arrival; and
// gives the FA or the AM again.
#![tactic(auto)]

mod permitting;
mod pressing;

pub use pressing::{press, seven_bytes};
