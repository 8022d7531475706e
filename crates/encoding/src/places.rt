// Where the parts of a line and of a state are, and how many bytes they are.

// The head of both: posts, tracks of posts 0 to 7, sidings, trains.
pub const POSTS_AT: usize = 0;

pub const TRACKS_AT: usize = POSTS_AT + 1;

pub const SIDINGS_AT: usize = TRACKS_AT + 8;

pub const TRAINS_AT: usize = SIDINGS_AT + 1;

pub const HEAD_LENGTH: usize = TRAINS_AT + 1;

pub const ROUTE_LENGTH: usize = 2;

pub const LINE_LENGTH: usize = HEAD_LENGTH + ROUTE_LENGTH * 6;

// What a frame can change of a train: present post, track there, status, what the status carries,
// and its last finished move: whether there is one, its from post and its to post.
pub const STANDING_LENGTH: usize = 7;

pub const TRAIN_LENGTH: usize = ROUTE_LENGTH + STANDING_LENGTH;

// Whether a gang has each of the sections 0 to 6.
pub const POSSESSIONS_AT: usize = HEAD_LENGTH + TRAIN_LENGTH * 6;

// The number of local runs given.
pub const GIVEN_AT: usize = POSSESSIONS_AT + 7;

// The journal count.
pub const LOGGED_AT: usize = GIVEN_AT + 1;

pub const STATE_LENGTH: usize = LOGGED_AT + 1;
