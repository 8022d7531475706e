// A state read from 74 bytes.
ghost use Rattle.std.specs.Prelude.{◌≡◌, ◌+◌, ◌≤◌, length};
ghost use Rattle.encoding.specs.StateBytes.{train_length, state_length};
ghost use Rattle.encoding.specs.StateBytes.{status_of, last_of, train_in, tracks_in, fleet_in};
ghost use Rattle.encoding.specs.StateBytes.{possessions_in, state_in};

use encoding::{
    GIVEN_AT, HEAD_LENGTH, LOGGED_AT, POSSESSIONS_AT, POSTS_AT, SIDINGS_AT, TRACKS_AT,
    TRAIN_LENGTH, TRAINS_AT,
};
use line::{PostNo, Route, TrackNo};
use rules::{State, Status, Train};
use std::array::from_fn;

// The state that the bytes encode.
pub fn state_in(bytes: &[u8]) -> State
    requires { length bytes.now ≡ state_length }
    ensures { result ≡ state_in bytes.now }
{
    State {
        posts: bytes[POSTS_AT],
        tracks: tracks_in(bytes),
        sidings: bytes[SIDINGS_AT],
        trains: bytes[TRAINS_AT],
        fleet: fleet_in(bytes),
        possessions: possessions_in(bytes),
        given: bytes[GIVEN_AT],
        logged: bytes[LOGGED_AT],
    }
}

fn tracks_in(bytes: &[u8]) -> [u8; 8]
    requires { length bytes.now ≡ state_length }
    ensures { result ≡ tracks_in bytes.now }
{
    from_fn(|p| bytes[TRACKS_AT + p])
}

fn fleet_in(bytes: &[u8]) -> [Train; 6]
    requires { length bytes.now ≡ state_length }
    ensures { result ≡ fleet_in bytes.now }
{
    from_fn(|t| train_in(bytes, HEAD_LENGTH + TRAIN_LENGTH * t))
}

fn possessions_in(bytes: &[u8]) -> [bool; 7]
    requires { length bytes.now ≡ state_length }
    ensures { result ≡ possessions_in bytes.now }
{
    from_fn(|i| bytes[POSSESSIONS_AT + i] == 1)
}

// The train whose bytes begin at i.
fn train_in(bytes: &[u8], i: usize) -> Train
    requires { i + train_length ≤ length bytes.now }
    ensures { result ≡ train_in bytes.now i }
{
    Train {
        route: Route {
            start: PostNo(bytes[i]),
            end: PostNo(bytes[i + 1]),
        },
        at: PostNo(bytes[i + 2]),
        track: TrackNo(bytes[i + 3]),
        status: status_of(bytes[i + 4], bytes[i + 5]),
        last: last_of(bytes[i + 6], bytes[i + 7], bytes[i + 8]),
    }
}

#[tactic(auto, unfolding(encoding::specs::StateBytes::status_of))]
fn status_of(status: u8, detail: u8) -> Status
    ensures { result ≡ status_of status detail }
{
    match status {
        0 => Status::Free,
        1 => Status::Asked(detail),
        _ => Status::Running(TrackNo(detail)),
    }
}

#[tactic(auto, unfolding(encoding::specs::StateBytes::last_of))]
fn last_of(last: u8, from: u8, to: u8) -> Option<(PostNo, PostNo)>
    ensures { result ≡ last_of last from to }
{
    match last {
        0 => None,
        _ => Some((PostNo(from), PostNo(to))),
    }
}
