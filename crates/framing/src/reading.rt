// Reading a frame: refusals 3, 4 and 5, in that order.
ghost use Rattle.std.specs.Prelude.{◌≡◌};
ghost use Rattle.frame.specs.Frame.{read_frame};

use frame::{AFE, AM, FA, FE, FRAME_LENGTH, LA, LB, LE, Message, Move};
use line::{PostNo, Refusal, TrainNo};

// What a frame of any bytes says. 02, card 4: "Kinds 5, 6 and 7 are known now".
#[tactic(auto, using(crate::proofs::Cases::readings))]
pub fn read(frame: &[u8]) -> Message
    ensures { result ≡ read_frame frame.now }
{
    if frame.len() != FRAME_LENGTH || frame[0] != 0 || frame[1] != 5 {
        return Message::Refused(Refusal::TornFrame as u8);
    }
    if frame[2] != 1 {
        return Message::Refused(Refusal::OtherEdition as u8);
    }
    let kind = frame[3];
    let m = Move {
        train: TrainNo(frame[4]),
        from: PostNo(frame[5]),
        to: PostNo(frame[6]),
    };
    match kind {
        FA => Message::Fa(m),
        FE => Message::Fe(m),
        AFE => Message::Afe(m),
        AM => Message::Am(m),
        LA => Message::La(m),
        LE => Message::Le(m),
        LB => Message::Lb(m),
        0 | 8..=255 => Message::Refused(Refusal::UnknownKind as u8),
    }
}
