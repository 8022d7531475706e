// A run of the box: begun, and from frame to frame.
#![tactic(auto)]

mod run;

pub use run::{after_frame, begun};
