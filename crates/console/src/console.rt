// The console: what it waits for, what has come of it, and the run.
use crate::piece::Piece;
use crate::run::Run;

// Bytes of the book are awaited, the book was refused by a number, bytes of frames are awaited, or
// the input has ended.
#[derive(Clone, Copy)]
pub enum Phase {
    Book,
    Refused(u8),
    Frames,
    Ended,
}

#[derive(Clone, Copy)]
pub struct Console {
    pub phase: Phase,
    pub piece: Piece,
    pub run: Run,
}
