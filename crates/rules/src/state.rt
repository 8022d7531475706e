// What the box keeps of the line and its trains. It goes in by value and comes back by value.
use line::{PostNo, Route, TrackNo};

// 01: "Each train's record carries its standing: Free, Asked or Running." An asked train carries
// the journal number of its request, and one that is Running the track at the post it runs to.
#[derive(Clone, Copy)]
pub enum Status {
    Free,
    Asked(u8),
    Running(TrackNo),
}

// `track` is that at its present post, 0 where the train is stabled. 02, card 6: "The state keeps each
// train's last finished move, or none": its from and to post.
#[derive(Clone, Copy)]
pub struct Train {
    pub route: Route,
    pub at: PostNo,
    pub track: TrackNo,
    pub status: Status,
    pub last: Option<(PostNo, PostNo)>,
}

// `sidings` is the set of posts that have one. `possessions` says of each section whether a gang has
// it, and `given` counts the local runs since the opening. Places for posts from `posts` on, trains
// from `trains` on and sections from `posts` - 1 on are not read. `logged` counts the records of the
// journal.
#[derive(Clone, Copy)]
pub struct State {
    pub posts: u8,
    pub tracks: [u8; 8],
    pub sidings: u8,
    pub trains: u8,
    pub fleet: [Train; 6],
    pub possessions: [bool; 7],
    pub given: u8,
    pub logged: u8,
}
