// Writing a frame: its seven bytes by value, and their placing in a lent buffer.
ghost use Rattle.std.specs.Prelude.{◌≡◌, ◌+◌, leb, length};
ghost use Rattle.common.specs.Part.{replaced_if_room};
ghost use Rattle.frame.specs.Frame.{frame_length, frame_bytes, bytes_of};

use frame::{AFE, AM, FA, FE, FRAME_LENGTH, LA, LB, LE, Message, Move};

// The seven bytes of a message; seven zeros where there is none.
#[tactic(auto, unfolding(frame::specs::Frame::bytes_of))]
pub fn write(message: Message) -> [u8; FRAME_LENGTH]
    ensures { result ≡ bytes_of message }
{
    match message {
        Message::Fa(m) => bytes(FA, m),
        Message::Fe(m) => bytes(FE, m),
        Message::Afe(m) => bytes(AFE, m),
        Message::Am(m) => bytes(AM, m),
        Message::La(m) => bytes(LA, m),
        Message::Le(m) => bytes(LE, m),
        Message::Lb(m) => bytes(LB, m),
        Message::Refused(_) => [0; FRAME_LENGTH],
    }
}

// The seven bytes of a kind and a move.
pub fn bytes(kind: u8, m: Move) -> [u8; FRAME_LENGTH]
    ensures { result ≡ frame_bytes kind m }
{
    [0, 5, 1, kind, m.train.0, m.from.0, m.to.0]
}

// Puts the seven bytes into `out` from `at` on and answers true; where they do not fit, it answers
// false and leaves `out` alone.
pub fn place(frame: [u8; FRAME_LENGTH], out: &mut [u8], at: usize) -> bool
    ensures value { result ≡ leb (at + frame_length) (length out.old) }
    ensures out_after { out.new ≡ replaced_if_room out.old at frame }
{
    part::put(&frame, out, at)
}
