// The book or the frame that is being read, as far as it has come.
use bounded::Bytes;
use line::LONGEST_BOOK;

pub type Piece = Bytes<LONGEST_BOOK>;
