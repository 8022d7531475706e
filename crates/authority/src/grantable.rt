// Whether a train can be granted, and the track that it gets then.
ghost use Rattle.std.specs.Prelude.{◌≡◌, true, ℕ, ◌<◌, get_or};
ghost use Rattle.tracks.specs.Answers.{track_number, NamesTrack};
ghost use Rattle.completion.specs.Configuration.{moved};
ghost use Rattle.rules.specs.State.{reached};
ghost use Rattle.rules.specs.Valid.{consistent};
ghost use Rattle.authority.specs.GrantTrack.{grant_track};

use fleet::{is_asked, next_move, reached, tracks_at, train_of};
use holding::{holders_of, section_free, tracks_held};
use line::{TrackNo, TrainNo};
use rules::State;
use tracks::free_track;

// 01: "A train can be granted if it is Asked, its next section is unheld, its next post is held by
// fewer trains than tracks, and the table has the bit for the placing in which every Running train,
// and this one, has reached its next post." 02, card 2: "The test for a free track now returns
// which one." Card 4: "A section held by a gang blocks authorities."
pub fn grantable(state: State, table: &[u8], t: TrainNo) -> Option<TrackNo>
    requires { (consistent state ≡ true) × (t.0 < state.trains) }
    ensures { (track_number result ≡ grant_track table.now state t.0) × NamesTrack result }
{
    let train = train_of(state, t);
    if !is_asked(train.status) {
        return None;
    }
    let next = next_move(state, t);
    let holders = holders_of(state);
    if !section_free(state, holders, line::section(next.from, next.to)) {
        return None;
    }
    let held = tracks_held(holders, next.to);
    let track = free_track(train.route, held, tracks_at(state, next.to))?;
    if !table::bit(table, table::code(reached_with(state, t), state.trains)) {
        return None;
    }
    Some(track)
}

// The posts that each train has then travelled.
#[tactic(auto, using(crate::proofs::GrantTest::few_trains, crate::proofs::GrantTest::short_way))]
fn reached_with(state: State, t: TrainNo) -> [u8; 6]
    requires { (consistent state ≡ true) × (t.0 < state.trains) }
    ensures { (u : ℕ) → u < state.trains → get_or result u 0 ≡ moved (reached state) t.0 u }
{
    let mut travelled = [0u8; 6];
    for u in 0..state.trains as usize {
        travelled[u] = reached(state.fleet[u]);
    }
    travelled[t.0 as usize] += 1;
    travelled
}
