// A state written to 74 bytes.
ghost use Rattle.std.specs.Prelude.{◌≡◌, [], ◌∷◌, length};
ghost use Rattle.common.specs.Part.{replaced};
ghost use Rattle.rules.specs.State.{line_of};
ghost use Rattle.encoding.specs.StateBytes.{status_no, detail, last_no, last_from, last_to};
ghost use Rattle.encoding.specs.StateBytes.{standing_bytes, train_bytes};
ghost use Rattle.encoding.specs.StateBytes.{ending_bytes, possessions_at, state_length, state_bytes, state_in};

use encoding::{
    GIVEN_AT, HEAD_LENGTH, LOGGED_AT, POSSESSIONS_AT, ROUTE_LENGTH, STANDING_LENGTH, TRAIN_LENGTH,
};
use line::{PostNo, Route};
use part::put;
use placing::put_head;
use rules::{State, Status, Train};

// Writes the 74 bytes of a state.
pub fn put_state(state: &State, to: &mut [u8])
    requires { length to.old ≡ state_length }
    ensures { to.new ≡ state_bytes state.now }
{
    put_head(state.posts, &state.tracks, state.sidings, state.trains, to);
    for (t, train) in state.fleet.iter().enumerate() {
        put(&train_bytes(*train), to, HEAD_LENGTH + TRAIN_LENGTH * t);
    }
    put_ending(state, to);
}

// Writes a state over the bytes of one that has the same line, as every state has that a frame leaves.
// Of each train it writes another part than `put_state`, at another place: a loop for both would be
// handed the part as a closure, with a contract of its own.
pub fn put_changes(state: &State, to: &mut [u8])
    requires { (length to.old ≡ state_length) × (line_of (state_in to.old) ≡ line_of state.now) }
    ensures { to.new ≡ state_bytes state.now }
{
    for (t, train) in state.fleet.iter().enumerate() {
        let at = HEAD_LENGTH + TRAIN_LENGTH * t + ROUTE_LENGTH;
        put(&standing_bytes(*train), to, at);
    }
    put_ending(state, to);
}

// Writes what comes after the trains: the sections, and the two counts.
fn put_ending(state: &State, to: &mut [u8])
    requires { length to.old ≡ state_length }
    ensures { to.new ≡ replaced to.old possessions_at (ending_bytes state.now) }
{
    for (i, held) in state.possessions.iter().enumerate() {
        to[POSSESSIONS_AT + i] = u8::from(*held);
    }
    to[GIVEN_AT] = state.given;
    to[LOGGED_AT] = state.logged;
}

fn train_bytes(train: Train) -> [u8; TRAIN_LENGTH]
    ensures { result ≡ train_bytes train }
{
    let Route { start, end } = train.route;
    let [at, track, status, detail, last, from, to] = standing_bytes(train);
    [start.0, end.0, at, track, status, detail, last, from, to]
}

fn standing_bytes(train: Train) -> [u8; STANDING_LENGTH]
    ensures { result ≡ standing_bytes train }
{
    let [status, detail] = status_bytes(train.status);
    let [last, from, to] = last_bytes(train.last);
    [train.at.0, train.track.0, status, detail, last, from, to]
}

fn status_bytes(status: Status) -> [u8; 2]
    ensures { result ≡ status_no status ∷ detail status ∷ [] }
{
    match status {
        Status::Free => [0, 0],
        Status::Asked(number) => [1, number],
        Status::Running(ahead) => [2, ahead.0],
    }
}

fn last_bytes(last: Option<(PostNo, PostNo)>) -> [u8; 3]
    ensures { result ≡ last_no last ∷ last_from last ∷ last_to last ∷ [] }
{
    match last {
        None => [0, 0, 0],
        Some((from, to)) => [1, from.0, to.0],
    }
}
