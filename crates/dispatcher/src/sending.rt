// The frames of the answers, written to the out buffer: of the records that are logged now, or the
// answer to a repeat.
ghost use Rattle.std.specs.Prelude.{◌≡◌, ◌≤◌, length};
ghost use Rattle.common.specs.Part.{replaced};
ghost use Rattle.journal.specs.Journal.{most_sent};
ghost use Rattle.frame.specs.Frame.{bytes_of};
ghost use Rattle.rules.specs.Answer.{out_length, frames_of};
ghost use Rattle.dispatcher.specs.Step.{frames_in, messages_of};

use accepting::Repeat;
use frame::{FRAME_LENGTH, Message};
use journal::Record;

// Writes the frames of the answers, one after the other, and answers how many they are.
pub fn send(answers: &[Record], out: &mut [u8]) -> u8
    requires { (length answers.now ≤ most_sent) × (out_length ≤ length out.old) }
    ensures { (result ≡ length answers.now) × (out.new ≡ replaced out.old 0 (frames_in answers.now)) }
{
    for (sent, entry) in answers.iter().enumerate() {
        framing::place(logging::frame_of(*entry), out, FRAME_LENGTH * sent);
    }
    answers.len() as u8
}

// Writes the frame by which a repeat is answered, and answers how many that is.
#[tactic(auto, using(crate::proofs::Sent::sent_none))]
pub fn send_again(repeat: Repeat, out: &mut [u8]) -> u8
    requires { out_length ≤ length out.old }
    ensures { (result ≡ length (messages_of repeat))
        × (out.new ≡ replaced out.old 0 (frames_of (messages_of repeat))) }
{
    match repeat {
        Repeat::Not | Repeat::Silent => 0,
        Repeat::Told(message) => send_first(message, out),
    }
}

// Writes the frame of a message to the beginning of `out`: one is sent.
fn send_first(message: Message, out: &mut [u8]) -> u8
    requires { out_length ≤ length out.old }
    ensures { (result ≡ 1) × (out.new ≡ replaced out.old 0 (bytes_of message)) }
{
    framing::place(framing::write(message), out, 0);
    1
}
