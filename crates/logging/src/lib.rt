// The journal's code: the record of a message, the batch of records that one frame adds, and thin
// functions over the lent run of records. What they are to do is in `journal`.
#![tactic(auto)]

mod batch;
mod log;
mod record;
mod writing;

pub use batch::{empty, with};
pub use log::{blank_log, log_at, log_length, log_with};
pub use record::{frame_of, record_of, record_on};
pub use writing::{append, fitting};
