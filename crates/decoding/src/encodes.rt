// Which bytes encode a state.
ghost use Rattle.std.specs.Prelude.{◌≡◌, ◌+◌, ◌≤◌, length};
ghost use Rattle.encoding.specs.StateBytes.{train_length, state_length, encodes_status, encodes_last, encodes_train};
ghost use Rattle.encoding.specs.StateBytes.{encodes_trains, encodes_possessions, encodes_state};

use encoding::{GIVEN_AT, HEAD_LENGTH, POSSESSIONS_AT, STATE_LENGTH, TRAIN_LENGTH};

// Whether the bytes encode a state.
#[tactic(auto, unfolding(encoding::specs::StateBytes::encodes_state))]
pub fn encodes_state(bytes: &[u8]) -> bool
    ensures { result ≡ encodes_state bytes.now }
{
    bytes.len() == STATE_LENGTH && encodes_trains(bytes) && encodes_possessions(bytes)
}

fn encodes_trains(bytes: &[u8]) -> bool
    requires { length bytes.now ≡ state_length }
    ensures { result ≡ encodes_trains bytes.now }
{
    (0..6).all(|t| encodes_train(bytes, HEAD_LENGTH + TRAIN_LENGTH * t))
}

// Whether the train whose bytes begin at i has a status and, or not, a last finished move.
fn encodes_train(bytes: &[u8], i: usize) -> bool
    requires { i + train_length ≤ length bytes.now }
    ensures { result ≡ encodes_train bytes.now i }
{
    encodes_status(bytes[i + 4], bytes[i + 5])
        && encodes_last(bytes[i + 6], bytes[i + 7], bytes[i + 8])
}

// Whether a number is a status, with 0 for what it carries where it is Free.
fn encodes_status(status: u8, detail: u8) -> bool
    ensures { result ≡ encodes_status status detail }
{
    status <= 2 && (status != 0 || detail == 0)
}

// Whether a number says that there is a last finished move or none, with 0 for both posts where there
// is none.
fn encodes_last(last: u8, from: u8, to: u8) -> bool
    ensures { result ≡ encodes_last last from to }
{
    last <= 1 && (last != 0 || from == 0 && to == 0)
}

// Whether there is 0 or 1 for each section.
fn encodes_possessions(bytes: &[u8]) -> bool
    requires { length bytes.now ≡ state_length }
    ensures { result ≡ encodes_possessions bytes.now }
{
    bytes[POSSESSIONS_AT..GIVEN_AT]
        .iter()
        .all(|section| *section <= 1)
}
