// A state written to bytes. Which bytes these are is said in `encoding`.
#![tactic(auto)]

mod state_bytes;

pub use state_bytes::{put_changes, put_state};
