// The driver unit's code: made for one train and its route; whether its state is valid, its own move
// and its last one, and its phases. What it is to do is in `driver`; `pressing` and `hearing` have
// what it does then.
#![tactic(auto)]

mod making;
mod state;

pub use making::make;
pub use state::{awaiting, in_phase, last_move, own_move, valid};
