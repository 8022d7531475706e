// 02, card 2: "At opening, trains take tracks by the same rule in number order; parked trains count
// as up."
ghost use Rattle.std.specs.Prelude.{◌≡◌, true, ◌<◌};
ghost use Rattle.common.specs.Bits.{bit_at};
ghost use Rattle.common.specs.Tabulate.{tabulate};
ghost use Rattle.line.specs.Line.{well_formed};
ghost use Rattle.tracks.specs.Tracks.{unless_away, track_for};
ghost use Rattle.rules.specs.Opening.{opened_track};

use line::{Line, Route, TrackNo};

// The track of each train; 0 at the places past the trains. `held` has for each post the set of the
// tracks that the trains passed hold there. A train without a track marks 0, which is no track's
// number.
pub fn start_tracks(line: Line) -> [u8; 6]
    requires { well_formed line ≡ true }
    ensures { result ≡ tabulate 6 (opened_track line) }
{
    let mut starts = [0u8; 6];
    let mut held = [0u8; 8];
    for t in 0..line.trains as usize {
        let route = line.routes[t];
        let p = route.start.0 as usize;
        let track = start_track(route, line.sidings, held[p], line.tracks[p]);
        starts[t] = track.0;
        held[p] = tracks::with_track(held[p], track);
    }
    starts
}

// The track of one train, at a post with so many tracks of which some are held; 0 for none, as a state's
// trains have it: "one put away in a siding has none". After check 19 any other finds a free one.
fn start_track(route: Route, sidings: u8, held: u8, tracks: u8) -> TrackNo
    requires { tracks < 8 }
    ensures { result.0 ≡ unless_away sidings route.end.0 route.start.0
        (track_for route (bit_at held) tracks) }
{
    if line::stabled(sidings, route.end, route.start) {
        return TrackNo(0);
    }
    tracks::free_track(route, held, tracks).unwrap_or(TrackNo(0))
}
