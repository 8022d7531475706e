// A frame that repeats an earlier one. 02, card 6: "a repeated FA gets its AFE or FE again, and an AM
// naming the train's last finished move is taken with no output".
ghost use Rattle.std.specs.Prelude.{◌≡◌};
ghost use Rattle.rules.specs.Answer.{asked_again, arrived_again, again};
ghost use Rattle.accepting.specs.Repeating.{NamesTrain, told_by, is_repeat};

use fleet::{is_last, status_of, train_of};
use frame::{Message, Move};
use rules::{State, Status, Train};

// What a frame is answered by as a repeat: an enum of three, where an Option in an Option would leave
// it open which of its two None is which.
#[derive(Clone, Copy)]
pub enum Repeat {
    // It repeats none.
    Not,
    // It is taken, and nothing is sent.
    Silent,
    // This is sent.
    Told(Message),
}

// Of a frame that passed the checks.
pub fn again(state: State, message: Message) -> Repeat
    requires { NamesTrain message }
    ensures { told_by result ≡ again state message }
{
    match message {
        Message::Fa(m) => asked_again(status_of(state, m.train), m),
        Message::Am(m) => arrived_again(train_of(state, m.train), m),
        Message::La(_) | Message::Lb(_) => Repeat::Not,
        Message::Fe(_) | Message::Afe(_) | Message::Le(_) | Message::Refused(_) => Repeat::Not,
    }
}

pub fn is_repeat(answer: Repeat) -> bool
    ensures { result ≡ is_repeat (told_by answer) }
{
    match answer {
        Repeat::Not => false,
        Repeat::Silent | Repeat::Told(_) => true,
    }
}

// An FA of a train that has asked, or has its authority.
fn asked_again(status: Status, m: Move) -> Repeat
    ensures { told_by result ≡ asked_again status m }
{
    match status {
        Status::Free => Repeat::Not,
        Status::Asked(_) => Repeat::Told(Message::Afe(m)),
        Status::Running(_) => Repeat::Told(Message::Fe(m)),
    }
}

// An AM of the last finished move.
fn arrived_again(train: Train, m: Move) -> Repeat
    ensures { told_by result ≡ arrived_again train.last m }
{
    if is_last(train.last, m.from, m.to) {
        Repeat::Silent
    } else {
        Repeat::Not
    }
}
