// The records that one frame adds, by value: its own and those of its answers, in order.
use crate::record::Record;

// 01: "At most 6 frames go out".
pub const MOST_SENT: usize = 6;

// A frame and its answers.
pub const BATCH_LENGTH: usize = 1 + MOST_SENT;

// The first n items are records to be written.
#[derive(Clone, Copy)]
pub struct Batch {
    pub items: [Record; BATCH_LENGTH],
    pub n: usize,
}
