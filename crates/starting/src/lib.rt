// The tracks that trains take at the opening.
#![tactic(auto)]

mod starting;

pub use starting::start_tracks;
