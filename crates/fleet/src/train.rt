// One train's record: its status, its last finished move, its next post and the track there, what it
// has travelled, and the record changed.
ghost use Rattle.std.specs.Prelude.{◌≡◌, ◌<◌};
ghost use Rattle.line.specs.Route.{distance};
ghost use Rattle.tracks.specs.Tracks.{unless_away};
ghost use Rattle.rules.specs.State.{is_free, is_asked, is_running, track_ahead, is_last, at_end, next_of};
ghost use Rattle.rules.specs.State.{reached_by, next_move, with_status, arrived_next};

use crate::fleet::train_of;
use frame::Move;
use line::{PostNo, TrackNo, TrainNo};
use rules::{State, Status, Train};

pub fn is_free(status: Status) -> bool
    ensures { result ≡ is_free status }
{
    matches!(status, Status::Free)
}

pub fn is_asked(status: Status) -> bool
    ensures { result ≡ is_asked status }
{
    matches!(status, Status::Asked(_))
}

pub fn is_running(status: Status) -> bool
    ensures { result ≡ is_running status }
{
    matches!(status, Status::Running(_))
}

// The track at the post that a Running train runs to.
pub fn track_ahead(status: Status) -> TrackNo
    ensures { result.0 ≡ track_ahead status }
{
    match status {
        Status::Running(track) => track,
        _ => TrackNo(0),
    }
}

// Whether the last finished move is the one from post `p` to `q`.
pub fn is_last(last: Option<(PostNo, PostNo)>, p: PostNo, q: PostNo) -> bool
    ensures { result ≡ is_last last p.0 q.0 }
{
    last == Some((p, q))
}

pub fn at_end(train: Train) -> bool
    ensures { result ≡ at_end train }
{
    train.at == train.route.end
}

// The post after the present one on the way to its end.
pub fn next_post(train: Train) -> PostNo
    ensures { result.0 ≡ next_of train }
{
    line::next_post(train.at, train.route.end)
}

// The move that train `t` has before it.
pub fn next_move(state: State, t: TrainNo) -> Move
    requires { t.0 < 6 }
    ensures { result ≡ next_move state t.0 }
{
    let train = train_of(state, t);
    Move {
        train: t,
        from: train.at,
        to: next_post(train),
    }
}

// The posts travelled, and one more while it is Running.
pub fn reached(train: Train) -> u8
    requires { distance train.route.start.0 train.at.0 < 8 }
    ensures { result ≡ reached_by train }
{
    let travelled = line::distance(train.route.start, train.at);
    if is_running(train.status) {
        travelled + 1
    } else {
        travelled
    }
}

// The same train with another status.
pub fn with_status(train: Train, status: Status) -> Train
    ensures { result ≡ with_status train status }
{
    Train { status, ..train }
}

// 01: "the train becomes Free at the post it ran to". 02, card 6: the move is its last finished one.
pub fn arrived(sidings: u8, train: Train) -> Train
    ensures { result ≡ arrived_next sidings train }
{
    let at = next_post(train);
    Train {
        at,
        track: track_there(sidings, train, at),
        status: Status::Free,
        last: Some((train.at, at)),
        ..train
    }
}

// Its track at the post it ran to. 02, card 2: "one put away in a siding has none".
fn track_there(sidings: u8, train: Train, at: PostNo) -> TrackNo
    ensures { result.0 ≡ unless_away sidings train.route.end.0 at.0 (track_ahead train.status) }
{
    if line::stabled(sidings, train.route.end, at) {
        TrackNo(0)
    } else {
        track_ahead(train.status)
    }
}
