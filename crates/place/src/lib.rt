// What a place report says, and where it puts a unit on its line. specs/ has the definitions that the
// contracts of `locating` cite, and the claims over them.
#![tactic(auto)]

mod report;

pub use report::{Place, Report, place_refusal};
