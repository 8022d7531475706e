// Whether a line has the form that a book gives it.
#![tactic(auto)]

mod form;

pub use form::{routes_on_line, tracks_in_range, well_formed};
