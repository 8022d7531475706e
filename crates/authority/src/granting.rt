// The granting: "the oldest Asked train (lowest FA number) that can be granted becomes Running and
// an FE is written; again from the oldest, until none can be granted."
ghost use Rattle.std.specs.Prelude.{◌≡◌, true, ◌+◌, ◌≤◌, ◌<◌};
ghost use Rattle.journal.specs.Journal.{journal_length};
ghost use Rattle.rules.specs.State.{next_of, train_of, free_track, one_logged};
ghost use Rattle.rules.specs.Valid.{consistent};
ghost use Rattle.rules.specs.Granting.{begun, settled};
ghost use Rattle.rules.specs.Answer.{most_logged};
ghost use Rattle.authority.specs.Progress.{unlogged, progress_of, progress_with, progress_to};

use crate::asking::next_asked;
use crate::grantable::grantable;
use fleet::{next_move, one_logged, train_of, with_status, with_train};
use frame::Message;
use journal::{Batch, Record};
use line::{TrackNo, TrainNo};
use logging::record_on;
use rules::{State, Status};

// How far the work on a frame is: the state, and the records of what was logged so far.
#[derive(Clone, Copy)]
pub struct Progress {
    pub state: State,
    pub batch: Batch,
}

impl Progress {
    // Nothing is logged yet.
    pub fn new(state: State) -> Progress
        ensures { result ≡ unlogged state }
    {
        Progress {
            state,
            batch: logging::empty(),
        }
    }

    // A record more is logged.
    pub fn logged(self, entry: Record) -> Progress
        requires { self.state.logged ≤ journal_length }
        ensures { result ≡ progress_with self.state self.batch entry }
    {
        Progress {
            state: one_logged(self.state),
            batch: logging::with(self.batch, entry),
        }
    }
}

// The granting, after `entry` is logged.
pub fn settle(state: State, table: &[u8], entry: Record) -> Progress
    requires { (consistent (one_logged state) ≡ true) × (state.logged + most_logged ≤ journal_length) }
    ensures { result ≡ progress_of (settled table.now (begun state entry)) }
{
    let mut work = Progress::new(state).logged(entry);
    'again: loop {
        let mut from: u8 = 0;
        loop {
            let Some(asker) = next_asked(work.state, from) else {
                return work;
            };
            if let Some(track) = grantable(work.state, table, asker.train) {
                work = granted(work, asker.train, track);
                continue 'again;
            }
            from = asker.number + 1;
        }
    }
}

// Train `t` becomes Running, on its way to the track that is free for it, and its FE is logged. 02,
// card 2: "The FE record gains the track number at the post run to".
fn granted(work: Progress, t: TrainNo, track: TrackNo) -> Progress
    requires t_bound { (t.0 < 6) × (work.state.logged ≤ journal_length) }
    requires track_value { track.0 ≡ free_track work.state t.0 (next_of (train_of work.state t.0)) }
    ensures { result ≡ progress_to work t.0 }
{
    let entry = record_on(Message::Fe(next_move(work.state, t)), track);
    let train = train_of(work.state, t);
    let running = with_status(train, Status::Running(track));
    let state = with_train(work.state, t, running);
    Progress { state, ..work }.logged(entry)
}
