// A line written to bytes, and the head that a line and a state begin with. Which bytes these are is
// said in `encoding`.
#![tactic(auto)]

mod head_bytes;
mod line_bytes;

pub use head_bytes::put_head;
pub use line_bytes::put_line;
