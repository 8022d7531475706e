// Reading a line book.
#![tactic(auto)]

mod reading;

pub use reading::{number_of, read, read_positioned};
