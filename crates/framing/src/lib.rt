// The code of frames: seven bytes read as a message, written, and placed in a buffer. What it is to
// do is in `frame`.
#![tactic(auto)]

mod reading;
mod writing;

pub use reading::read;
pub use writing::{bytes, place, write};
