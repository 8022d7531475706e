// The record of a message, and the frame of a record.
ghost use Rattle.std.specs.Prelude.{◌≡◌};
ghost use Rattle.journal.specs.Journal.{blank, record_with, record_of, record_on, frame_of};

use frame::{AFE, AM, FA, FE, FRAME_LENGTH, LA, LB, LE, Message, Move};
use journal::Record;
use line::{PostNo, TrackNo, TrainNo};

// No record: all 0.
pub fn blank() -> Record
    ensures { result ≡ blank }
{
    Record {
        kind: 0,
        train: TrainNo(0),
        from: PostNo(0),
        to: PostNo(0),
        track: TrackNo(0),
    }
}

// The record by which a message is logged; the blank one where there is no message.
#[tactic(auto, unfolding(journal::specs::Journal::record_of))]
pub fn record_of(message: Message) -> Record
    ensures { result ≡ record_of message }
{
    match message {
        Message::Fa(m) => of_kind(FA, m),
        Message::Fe(m) => of_kind(FE, m),
        Message::Afe(m) => of_kind(AFE, m),
        Message::Am(m) => of_kind(AM, m),
        Message::La(m) => of_kind(LA, m),
        Message::Le(m) => of_kind(LE, m),
        Message::Lb(m) => of_kind(LB, m),
        Message::Refused(_) => blank(),
    }
}

// The same, with the track that its train gets.
pub fn record_on(message: Message, track: TrackNo) -> Record
    ensures { result ≡ record_on track.0 message }
{
    Record {
        track,
        ..record_of(message)
    }
}

fn of_kind(kind: u8, m: Move) -> Record
    ensures { result ≡ record_with kind m }
{
    Record {
        kind,
        train: m.train,
        from: m.from,
        to: m.to,
        track: TrackNo(0),
    }
}

// The seven bytes of the frame that a record was made of.
pub fn frame_of(entry: Record) -> [u8; FRAME_LENGTH]
    ensures { result ≡ frame_of entry }
{
    let m = Move {
        train: entry.train,
        from: entry.from,
        to: entry.to,
    };
    framing::bytes(entry.kind, m)
}
