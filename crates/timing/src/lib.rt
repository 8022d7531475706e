// The running time between two posts.
#![tactic(auto)]

mod timing;

pub use timing::{Time, running_time};
