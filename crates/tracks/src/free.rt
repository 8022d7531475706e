// The free track of a post. Those that are held are a set in eight bits: that of value 2 ^ k is
// track k's.
ghost use Rattle.std.specs.Prelude.{◌≡◌, ◌<◌};
ghost use Rattle.common.specs.Bits.{bit_at};
ghost use Rattle.tracks.specs.Tracks.{smallest, largest, track_for};
ghost use Rattle.tracks.specs.Answers.{track_number, NamesTrack, with_track};

use line::{Route, TrackNo};

// 02, card 2: "The test for a free track now returns which one. An up train (end above start) gets the
// smallest unheld track, a down train the largest." Of a post with so many tracks: the remainder is
// the number itself, and shows the compiler that a search has few turns.
#[tactic(auto, using(crate::proofs::Choice::up_track, crate::proofs::Choice::down_track))]
pub fn free_track(route: Route, held: u8, tracks: u8) -> Option<TrackNo>
    requires { tracks < 8 }
    ensures { (track_number result ≡ track_for route (bit_at held) tracks) × NamesTrack result }
{
    let last = tracks % 8;
    if route.start <= route.end {
        smallest(held, last)
    } else {
        largest(held, last)
    }
}

#[tactic(auto, using(crate::proofs::Choice::found_smallest, crate::proofs::Choice::no_smallest))]
fn smallest(held: u8, tracks: u8) -> Option<TrackNo>
    requires { tracks < 8 }
    ensures { (track_number result ≡ smallest (bit_at held) tracks) × NamesTrack result }
{
    for k in 1..tracks + 1 {
        if !is_held(held, k) {
            return Some(TrackNo(k));
        }
    }
    None
}

#[tactic(auto, using(crate::proofs::Choice::found_largest, crate::proofs::Choice::no_largest))]
fn largest(held: u8, tracks: u8) -> Option<TrackNo>
    requires { tracks < 8 }
    ensures { (track_number result ≡ largest (bit_at held) tracks) × NamesTrack result }
{
    for k in (1..=tracks).rev() {
        if !is_held(held, k) {
            return Some(TrackNo(k));
        }
    }
    None
}

fn is_held(held: u8, k: u8) -> bool
    requires { k < 8 }
    ensures { result ≡ bit_at held k }
{
    (held >> k) % 2 == 1
}

// The set with a track in it. A number from 8 on is no track's.
#[tactic(auto, using(crate::proofs::Sets::no_track, crate::proofs::Sets::track_joined))]
pub fn with_track(held: u8, track: TrackNo) -> u8
    ensures { result ≡ with_track held track.0 }
{
    if 8 <= track.0 {
        held
    } else {
        held | 1 << track.0
    }
}
