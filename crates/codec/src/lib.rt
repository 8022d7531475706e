// A unit read from bytes and written to them, a journal, a running time and a place written. Which
// bytes these are is said in `encoding`.
#![tactic(auto)]

mod journal_bytes;
mod place_bytes;
mod time_bytes;
mod unit_bytes;

pub use journal_bytes::{RECORD_LENGTH, append};
pub use place_bytes::{PLACE_LENGTH, put_place};
pub use time_bytes::{TIME_LENGTH, put_time};
pub use unit_bytes::{UNIT_LENGTH, button_of, encodes_unit, put_unit, unit_in};
