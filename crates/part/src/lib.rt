// Bytes put into a lent buffer, of which they are a part.
#![tactic(auto)]

mod putting;

pub use putting::put;
