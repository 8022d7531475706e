// The dispatcher's box: the answer to a frame.
#![tactic(auto)]

mod answering;
mod sending;
mod stepping;

pub use answering::{Logged, answer, answer_log};
pub use checks::OUT_LENGTH;
pub use stepping::{Outcome, step};
