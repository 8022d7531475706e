// The journal: its records, and the batch of records that one frame adds. 01: "An accepted frame is
// logged, then each answer in order of sending." The types are declared here; the code is in
// `logging`.
#![tactic(auto)]

mod batch;
mod log;
mod record;

pub use batch::{BATCH_LENGTH, Batch, MOST_SENT};
pub use log::Log;
pub use record::Record;

// How many records a lent journal has at least.
pub const JOURNAL_LENGTH: usize = 236;
