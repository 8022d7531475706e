// The tracks of a post: which of them a train gets.
#![tactic(auto)]

mod free;

pub use free::{free_track, with_track};
