// What the desk prints, as bytes: the lines of a run, or the line of a refused book.
#![tactic(auto)]

mod lines;
mod printing;
mod text;

pub use printing::{book_text, run_text};
pub use text::{TEXT_LENGTH, Text};
