// The state, read and changed: the record of one train, the tracks at a post, the journal's count.
ghost use Rattle.std.specs.Prelude.{◌≡◌, ◌<◌, get_or};
ghost use Rattle.rules.specs.State.{train_of, with_train, one_logged};

use line::{PostNo, TrainNo};
use rules::{State, Status, Train};

// The record of train `t`.
pub fn train_of(state: State, t: TrainNo) -> Train
    requires { t.0 < 6 }
    ensures { result ≡ train_of state t.0 }
{
    state.fleet[t.0 as usize]
}

// Its status.
pub fn status_of(state: State, t: TrainNo) -> Status
    requires { t.0 < 6 }
    ensures { result ≡ (train_of state t.0).status }
{
    train_of(state, t).status
}

// The tracks at post `p`.
pub fn tracks_at(state: State, p: PostNo) -> u8
    requires { p.0 < 8 }
    ensures { result ≡ get_or state.tracks p.0 0 }
{
    state.tracks[p.0 as usize]
}

// The state with another record of train `t`.
pub fn with_train(state: State, t: TrainNo, train: Train) -> State
    requires { t.0 < 6 }
    ensures { result ≡ with_train state t.0 train }
{
    let mut next = state;
    next.fleet[t.0 as usize] = train;
    next
}

// One record more in the journal.
pub fn one_logged(state: State) -> State
    requires { state.logged < 255 }
    ensures { result ≡ one_logged state }
{
    State {
        logged: state.logged + 1,
        ..state
    }
}
