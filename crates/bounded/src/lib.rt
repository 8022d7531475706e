// Bytes by value, at most so many: the desk has fixed memory and no heap.
#![tactic(auto)]

mod bytes;

pub use bytes::Bytes;
