// The stages in which a book is read.
#![tactic(auto)]

mod positions;
mod reading;
mod stage;

pub use positions::{check_positions, read_positions};
pub use reading::{
    COUNTS_AT, FIRST_EDITION, LAST_EDITION, VERSION_AT, positioned, read_posts, read_sidings,
    read_trains, trains_at,
};
pub use stage::Stage;
