// The pieces of the input, a book and frames: the book opened and the frame answered, as far as they
// have come.
#![tactic(auto)]

mod answering;
mod book_piece;

pub use answering::with_frame;
pub use book_piece::{is_book, with_book};
