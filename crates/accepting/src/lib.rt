// What an accepted frame does: whether it repeats an earlier one, and, where it repeats none, what
// becomes of the state and which records it adds.
#![tactic(auto)]

mod accepting;
mod repeats;

pub use accepting::accept;
pub use repeats::{Repeat, again, is_repeat};
