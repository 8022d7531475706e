// One record of the journal.
use line::{PostNo, TrackNo, TrainNo};

// 01: "kind, train, from, to". 02, card 2: "The FE record gains the track number at the post run to,
// from 1; other records have 0 there."
#[derive(Clone, Copy)]
pub struct Record {
    pub kind: u8,
    pub train: TrainNo,
    pub from: PostNo,
    pub to: PostNo,
    pub track: TrackNo,
}
