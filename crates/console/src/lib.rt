// The desk as a machine over bytes, as the paper says it: what it makes of each byte of a book and of
// frames and of the end of the input, and what is printed then. The types are declared here; the
// code is in `run`, `pieces` and `intake`.
#![tactic(auto)]

mod console;
mod piece;
mod run;

pub use console::{Console, Phase};
pub use piece::Piece;
pub use run::Run;
