// The place of a report: a number of metres beside whole metres, and a report beside a book.
#![tactic(auto)]

mod locating;
mod metres;

pub use locating::locate;
