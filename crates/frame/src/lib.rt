// Frames: the seven bytes by which the two ends speak, and the messages that they say. The types are
// declared here; the code is in `framing`.
#![tactic(auto)]

mod format;
mod message;

pub use format::{AFE, AM, FA, FE, FRAME_LENGTH, LA, LB, LE};
pub use message::{Message, Move};
