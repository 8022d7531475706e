// A state read from bytes. Which bytes these are is said in `encoding`.
#![tactic(auto)]

mod encodes;
mod state_bytes;

pub use encodes::encodes_state;
pub use state_bytes::state_in;
