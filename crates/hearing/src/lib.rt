// The driver unit hears what the dispatcher answers.
#![tactic(auto)]

mod hearing;

pub use hearing::hear;
