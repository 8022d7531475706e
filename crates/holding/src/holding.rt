// Who holds what: for each post and for each section the set of the trains that hold it, in six
// bits, that of value 2 ^ t train t's; and for each post the set of the tracks that they hold, in
// eight, that of value 2 ^ k track k's.
ghost use Rattle.std.specs.Prelude.{◌≡◌, ◌+◌, ◌≤◌, ◌<◌, get_or};
ghost use Rattle.std.specs.Int.Count.{ones};
ghost use Rattle.common.specs.Below.{of_bool};
ghost use Rattle.rules.specs.State.{section_free};
ghost use Rattle.holding.specs.Holders.{Placed, Held};

use fleet::{is_running, next_post, possessed, track_ahead};
use line::{PostNo, SectionNo};
use rules::State;
use tracks::with_track;

// The set of each post, the set of each section, and the tracks of each post.
#[derive(Clone, Copy)]
pub struct Holders {
    pub posts: [u8; 8],
    pub sections: [u8; 8],
    pub tracks: [u8; 8],
}

// 01: "A Running train, from its present post p to q, holds the section between them and a track at
// each of p and q. .. Another train holds a track at its present post." 02, card 1: one that is
// stabled holds none. It is built into its callers: an answer then needs 200 bytes of stack less.
#[inline(always)]
pub fn holders_of(state: State) -> Holders
    requires { (state.trains ≤ 6) × Placed state }
    ensures { Held state result }
{
    let mut posts = [0u8; 8];
    let mut sections = [0u8; 8];
    let mut tracks = [0u8; 8];
    for t in 0..state.trains as usize {
        let train = state.fleet[t];
        let own = 1u8 << t;
        let p = train.at.0 as usize;
        if is_running(train.status) {
            let next = next_post(train);
            let q = next.0 as usize;
            let i = line::section(train.at, next).0 as usize;
            posts[p] |= own;
            posts[q] |= own;
            sections[i] |= own;
            tracks[p] = with_track(tracks[p], train.track);
            tracks[q] = with_track(tracks[q], track_ahead(train.status));
        } else if !line::stabled(state.sidings, train.route.end, train.at) {
            posts[p] |= own;
            tracks[p] = with_track(tracks[p], train.track);
        }
    }
    Holders {
        posts,
        sections,
        tracks,
    }
}

// 02, card 4: whether "no train and no gang holds the section".
pub fn section_free(state: State, holders: Holders, i: SectionNo) -> bool
    requires { (state.posts ≤ 8) × (i.0 < 8) × Held state holders }
    ensures { result ≡ section_free state i.0 }
{
    holders_in(holders.sections[i.0 as usize], possessed(state, i)) == 0
}

// How many hold a section, by the set of the trains that do and whether a gang has it.
pub fn holders_in(trains: u8, gang: bool) -> u32
    ensures { result ≡ ones trains + of_bool gang }
{
    trains.count_ones() + u32::from(gang)
}

// The set of the tracks that are held at post `p`.
pub fn tracks_held(holders: Holders, p: PostNo) -> u8
    requires { p.0 < 8 }
    ensures { result ≡ get_or holders.tracks p.0 0 }
{
    holders.tracks[p.0 as usize]
}
