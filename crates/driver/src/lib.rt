// The driver's unit in the cab, as the paper says it: its state, when that is valid, what making it,
// a button and a frame do, and the claims on its whole history. The types are declared here; the
// code is in `unit`, `pressing` and `hearing`.
#![tactic(auto)]

mod result;
mod state;

pub use result::{Heard, Made, Pressed};
pub use state::{Button, Phase, Unit};
