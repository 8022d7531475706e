// The checks of a frame at the dispatcher's box: whether it is refused, and by which number.
#![tactic(auto)]

mod checks;

pub use checks::{OUT_LENGTH, check_frame};
