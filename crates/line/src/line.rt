// What a book says, and what reading one gives.
use crate::route::Route;

// The posts with the number of tracks at each and the set of those with a siding, and the trains
// with their routes. Places for posts from `posts` on and trains from `trains` on are 0.
#[derive(Clone, Copy)]
pub struct Line {
    pub posts: u8,
    pub tracks: [u8; 8],
    pub sidings: u8,
    pub trains: u8,
    pub routes: [Route; 6],
}

// The bytes of the longest book: edition 3, with its siding byte and four bytes for each position, of
// eight posts and six trains.
pub const LONGEST_BOOK: usize = 5 + 8 + 1 + 4 * 8 + 2 * 6;

// Whether a book is read, or the number of its refusal; the line, and beside it the position of each
// post in metres, 0 for posts from `posts` on and where the edition has no positions. The line of a
// refused book is handed out too, all 0: so they stand beside one another.
#[derive(Clone, Copy)]
pub struct Reading {
    pub outcome: Result<(), u8>,
    pub line: Line,
    pub positions: [u32; 8],
}
