// Whether a state that is handed in is valid (01: sound): its counts, each train's record, each post
// with its section and the tracks held there, and the numbers of the requests.
ghost use Rattle.std.specs.Prelude.{◌≡◌, not, ◌||◌, ◌+◌, ◌≤◌, ◌<◌, length};
ghost use Rattle.std.specs.Int.Count.{ones};
ghost use Rattle.common.specs.Below.{of_bool, all_below};
ghost use Rattle.rules.specs.State.{is_free, at_end};
ghost use Rattle.rules.specs.Valid.{last_valid, train_valid, away_valid, number_below, same_number, number_valid};
ghost use Rattle.rules.specs.Valid.{consistent, valid};
ghost use Rattle.holding.specs.Holders.{Placed};
ghost use Rattle.validity.specs.Tests.{counts_valid, on_line, record_valid, records_valid};
ghost use Rattle.validity.specs.Tests.{held_within, own_tracks, place_valid};

use fleet::{at_end, is_free, is_last, possessed_of, status_of};
use holding::{holders_in, holders_of};
use line::{Route, SectionNo, TrackNo, TrainNo};
use rules::{State, Status, Train};

// 02, card 4: LA is answered by LE only if "fewer than 20 local runs were given since opening".
pub const MOST_GIVEN: u8 = 20;

// 02, card 7: "A state whose journal count is above 229 becomes strange, refusal 1."
const MOST_COUNTED: u8 = 229;

// The count comes first: it takes one comparison.
#[tactic(auto, unfolding(rules::specs::Valid::valid))]
pub fn valid(state: State) -> bool
    ensures { result ≡ valid state }
{
    state.logged <= MOST_COUNTED && consistent(state)
}

// All but the range of the count. The state is lent to its parts: one that takes a slice of a state
// handed on by value begins with a copy of it.
fn consistent(state: State) -> bool
    ensures { result ≡ consistent state }
{
    counts_valid(state.posts, state.sidings, state.trains, state.given)
        && trains_valid(&state)
        && places_valid(&state)
        && numbers_valid(&state)
}

// There are 2 to 8 posts, sidings at some of them, at most twenty local runs, and 1 to 6 trains.
fn counts_valid(posts: u8, sidings: u8, trains: u8, given: u8) -> bool
    ensures { result ≡ counts_valid posts sidings trains given }
{
    matches!(posts, 2..=8)
        && line::names_posts(posts, sidings)
        && given <= MOST_GIVEN
        && matches!(trains, 1..=6)
}

fn trains_valid(state: &State) -> bool
    requires { (state.now.trains ≤ 6) × (length state.now.fleet ≡ 6) }
    ensures { result ≡ records_valid state.now }
{
    state.fleet[..state.trains as usize]
        .iter()
        .all(|train| record_valid(state.posts, state.sidings, *train))
}

fn record_valid(posts: u8, sidings: u8, train: Train) -> bool
    ensures { result ≡ record_valid posts sidings train }
{
    on_line(posts, train.route) && train_valid(train) && away_valid(sidings, train)
}

// The route starts and ends on a line of so many posts.
fn on_line(posts: u8, route: Route) -> bool
    ensures { result ≡ on_line posts route }
{
    route.start.0 < posts && route.end.0 < posts
}

// The present post is on the route, the status fits it, and so does the last finished move.
fn train_valid(train: Train) -> bool
    ensures { result ≡ train_valid train }
{
    line::between(train.route.start, train.at, train.route.end)
        && status_valid(train)
        && last_valid(train)
}

// Only a train short of its end is Asked or Running.
fn status_valid(train: Train) -> bool
    ensures { result ≡ is_free train.status || not (at_end train) }
{
    is_free(train.status) || !at_end(train)
}

// 02, card 6: "none at its start, else the one-post move towards its end that reached the present
// post".
fn last_valid(train: Train) -> bool
    ensures { result ≡ last_valid train }
{
    if train.at == train.route.start {
        return train.last.is_none();
    }
    let before = line::next_post(train.at, train.route.start);
    is_last(train.last, before, train.at)
}

// 02, card 2: "one put away in a siding has none".
fn away_valid(sidings: u8, train: Train) -> bool
    ensures { result ≡ away_valid sidings train }
{
    !line::stabled(sidings, train.route.end, train.at) || train.track == TrackNo(0)
}

// Each post has 1 to 4 tracks and no more holders, each of them a track of its own; and each section
// one holder at most, a gang counted.
fn places_valid(state: &State) -> bool
    requires { (state.now.posts ≤ 8) × (state.now.trains ≤ 6) × Placed state.now }
    ensures { result ≡ all_below state.now.posts (place_valid state.now) }
{
    let holders = holders_of(*state);
    for p in 0..state.posts as usize {
        let tracks = state.tracks[p];
        let gang = possessed_of(state.possessions, state.posts, SectionNo(p as u8));
        if !held_within(tracks, holders.posts[p], holders.sections[p], gang) {
            return false;
        }
        if !own_tracks(tracks, holders.posts[p], holders.tracks[p]) {
            return false;
        }
    }
    true
}

// A post of so many tracks, and the section after it, have no more holders than they may: the ones of
// their sets, and for the section the gang.
fn held_within(tracks: u8, post: u8, section: u8, gang: bool) -> bool
    ensures { result ≡ held_within tracks (ones post) (ones section + of_bool gang) }
{
    matches!(tracks, 1..=4) && post.count_ones() <= tracks as u32 && holders_in(section, gang) <= 1
}

// 02, card 2: "the tracks held at a post differ and are in its count": the set of those held at one
// of so many has neither track 0 nor one above the last, and as many as the set of its holders.
fn own_tracks(tracks: u8, post: u8, held: u8) -> bool
    requires { tracks < 8 }
    ensures { result ≡ own_tracks tracks (ones post) held }
{
    held % 2 == 0 && held >> tracks < 2 && held.count_ones() == post.count_ones()
}

// The numbers of the Asked trains' requests are below the count, and no two are the same.
fn numbers_valid(state: &State) -> bool
    requires { (state.now.trains ≤ 6) × (length state.now.fleet ≡ 6) }
    ensures { result ≡ all_below state.now.trains (number_valid state.now) }
{
    for t in 0..state.trains {
        if !number_valid(state, TrainNo(t)) {
            return false;
        }
    }
    true
}

// Train `t`'s number is below the count, and no train before it has the same.
fn number_valid(state: &State, t: TrainNo) -> bool
    requires { (t.0 < 6) × (length state.now.fleet ≡ 6) }
    ensures { result ≡ number_valid state.now t.0 }
{
    let status = status_of(*state, t);
    let earlier = &state.fleet[..t.0 as usize];
    number_below(status, state.logged)
        && earlier
            .iter()
            .all(|train| !same_number(status, train.status))
}

fn number_below(status: Status, count: u8) -> bool
    ensures { result ≡ number_below status count }
{
    match status {
        Status::Asked(n) => n < count,
        _ => true,
    }
}

fn same_number(a: Status, b: Status) -> bool
    ensures { result ≡ same_number a b }
{
    match (a, b) {
        (Status::Asked(m), Status::Asked(n)) => m == n,
        _ => false,
    }
}
