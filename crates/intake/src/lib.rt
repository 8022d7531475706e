// The console's code: it takes the bytes of a book and of frames as they come, in parts of any size,
// and says what is printed once the input has ended.
#![tactic(auto)]

mod finishing;
mod phases;
mod taking;

pub use finishing::finish;
pub use phases::{awaits, fresh, printed};
pub use taking::take;
