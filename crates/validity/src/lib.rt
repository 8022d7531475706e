// Whether a state is valid. An inner part of the dispatcher.
#![tactic(auto)]

mod validity;

pub use validity::{MOST_GIVEN, valid};
