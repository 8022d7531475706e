// Who holds what in a state. Inner parts of the dispatcher, whose callers meet what they ask.
#![tactic(auto)]

mod holding;

pub use holding::{holders_in, holders_of, section_free, tracks_held};
