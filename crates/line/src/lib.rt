// The line: the sorts of numbers, the routes of its trains, what a book says of it, and the
// numbers by which anything is refused.
#![tactic(auto)]

mod line;
mod refusal;
mod route;
mod siding;
mod sorts;
pub mod word;

pub use line::{LONGEST_BOOK, Line, Reading};
pub use refusal::Refusal;
pub use route::{NO_ROUTE, Route, between, distance, next_post, section};
pub use siding::{names_posts, stabled};
pub use sorts::{PostNo, SectionNo, TrackNo, TrainNo};
