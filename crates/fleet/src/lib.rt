// The state, read and changed: the record of one train, its next move, and the sections in gangs'
// hands. Inner parts of the dispatcher, whose callers meet what they ask.
#![tactic(auto)]

mod fleet;
mod possession;
mod train;

pub use fleet::{one_logged, status_of, tracks_at, train_of, with_train};
pub use possession::{possessed, possessed_of, with_possession};
pub use train::{
    arrived, at_end, is_asked, is_free, is_last, is_running, next_move, next_post, reached,
    track_ahead, with_status,
};
