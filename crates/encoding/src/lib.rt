// Which bytes stand for a unit, a line, a state, a journal, a running time and a place. The places of a
// line and of a state are numbered here; specs/ has the definitions that the contracts of `placing`,
// `decoding`, `storing` and `codec` cite, and the claims over them.
#![tactic(auto)]

mod places;

pub use places::{
    GIVEN_AT, HEAD_LENGTH, LINE_LENGTH, LOGGED_AT, POSSESSIONS_AT, POSTS_AT, ROUTE_LENGTH,
    SIDINGS_AT, STANDING_LENGTH, STATE_LENGTH, TRACKS_AT, TRAIN_LENGTH, TRAINS_AT,
};
