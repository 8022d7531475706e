// One run of the box, as the desk prints it: a book and frames of seven bytes from a reader, then the
// records of the journal to a writer.
#![tactic(auto)]

mod reading;
mod serving;

pub use serving::serve;
