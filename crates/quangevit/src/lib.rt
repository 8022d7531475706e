// The two ends for C and Rust, the running time and the place of a report: the entry points over byte
// buffers that the caller lends, and the version. The header quangevit.h has the layouts. Each entry
// point of an end reads its bytes, calls the entry point of the crate below and writes the bytes of
// what comes back. A library exports nothing: `quangevit_c` hands each of them to C.
#![tactic(auto)]

mod cab;
mod office;
mod planning;
mod reports;
mod version;
mod word;

pub use cab::{quangevit_hear, quangevit_make_unit, quangevit_press};
pub use office::{quangevit_answer, quangevit_open, quangevit_read_book};
pub use planning::quangevit_running_time;
pub use reports::quangevit_locate;
pub use version::quangevit_version;
