// A run of the box, from frame to frame.
use journal::Log;
use rules::State;

// `refused` counts the refused frames.
#[derive(Clone, Copy)]
pub struct Run {
    pub state: State,
    pub log: Log,
    pub refused: u64,
}
