// The dispatcher's box before its first frame: the opening of a book.
#![tactic(auto)]

mod opening;

pub use opening::{empty_state, open, open_log, open_with};
