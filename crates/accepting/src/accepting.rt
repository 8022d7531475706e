// What an accepted frame does that repeats none.
ghost use Rattle.std.specs.Prelude.{◌≡◌, true, List, ℕ, ◌+◌, ◌≤◌, ◌<◌};
ghost use Rattle.journal.specs.Journal.{journal_length};
ghost use Rattle.accepting.specs.Types.{Fa, Am, La, Lb, Asked};
ghost use Rattle.rules.specs.State.{train_of, with_status, arrived_next, with_train, one_logged};
ghost use Rattle.rules.specs.Valid.{consistent};
ghost use Rattle.rules.specs.Granting.{Work, begun, settled};
ghost use Rattle.rules.specs.Answer.{most_logged, declined, anew};
ghost use Rattle.authority.specs.Progress.{progress_of};
ghost use Rattle.accepting.specs.Acceptable.{Ready, Acceptable};

use authority::{Progress, settle};
use fleet::{arrived, is_asked, status_of, train_of, with_possession, with_status, with_train};
use frame::{Message, Move};
use journal::Record;
use line::TrainNo;
use logging::record_of;
use rules::{State, Status, Train};

// The frame is logged and answered. What is none of FA, AM, LA and LB is not accepted.
#[tactic(auto, unfolding(rules::specs::Answer::anew, authority::specs::Progress::add_records))]
pub fn accept(state: State, table: &[u8], message: Message) -> Progress
    requires { Acceptable state message }
    ensures { result ≡ progress_of (anew table.now state message) }
{
    match message {
        Message::Fa(m) => request(state, table, m),
        Message::Am(m) => arrival(state, table, m),
        Message::La(m) => lend(state, m),
        Message::Lb(m) => give_back(state, table, m),
        Message::Fe(_) | Message::Afe(_) | Message::Le(_) | Message::Refused(_) => {
            Progress::new(state)
        }
    }
}

// 01: "FA: the train becomes Asked. Then the oldest Asked train .. that can be granted becomes
// Running .. If the asker was not granted, its AFE comes last."
fn request(state: State, table: &[u8], m: Move) -> Progress
    requires { Ready state (Fa m) (with_status (train_of state m.train.0) (Asked state.logged)) }
    ensures { result ≡ progress_of (anew table.now state (Fa m)) }
{
    let asked = with_status(train_of(state, m.train), Status::Asked(state.logged));
    let work = take(state, table, record_of(Message::Fa(m)), m.train, asked);
    decline(work, m)
}

// 01: "AM: the train becomes Free at the post it ran to. Then the same granting."
fn arrival(state: State, table: &[u8], m: Move) -> Progress
    requires { Ready state (Am m) (arrived_next state.sidings (train_of state m.train.0)) }
    ensures { result ≡ progress_of (anew table.now state (Am m)) }
{
    let free = arrived(state.sidings, train_of(state, m.train));
    take(state, table, record_of(Message::Am(m)), m.train, free)
}

// 02, card 4: "LA is answered by LE". Both are logged, and nobody can be granted who could not be
// before.
fn lend(state: State, m: Move) -> Progress
    requires { Acceptable state (La m) }
    ensures { (table : List ℕ) → result ≡ progress_of (anew table state (La m)) }
{
    let lent = with_possession(state, line::section(m.from, m.to), true, state.given + 1);
    let asked = Progress::new(lent).logged(record_of(Message::La(m)));
    asked.logged(record_of(Message::Le(m)))
}

// "LB frees it and starts the same granting as AM."
fn give_back(state: State, table: &[u8], m: Move) -> Progress
    requires { Acceptable state (Lb m) }
    ensures { result ≡ progress_of (anew table.now state (Lb m)) }
{
    let freed = with_possession(state, line::section(m.from, m.to), false, state.given);
    settle(freed, table, record_of(Message::Lb(m)))
}

// The frame is logged with the new record of train `t`, and then the granting goes on.
fn take(state: State, table: &[u8], entry: Record, t: TrainNo, train: Train) -> Progress
    requires t_bound { (t.0 < 6) × (state.logged + most_logged ≤ journal_length) }
    requires train_value { consistent (one_logged (with_train state t.0 train)) ≡ true }
    ensures { result ≡ progress_of (settled table.now
        (begun (with_train state t.0 train) entry)) }
{
    settle(with_train(state, t, train), table, entry)
}

// If the asker was not granted, its AFE is logged.
fn decline(work: Progress, m: Move) -> Progress
    requires { (m.train.0 < 6) × (work.state.logged ≤ journal_length) }
    ensures { (w : Work) → work ≡ progress_of w → result ≡ progress_of (declined m w) }
{
    if is_asked(status_of(work.state, m.train)) {
        return work.logged(record_of(Message::Afe(m)));
    }
    work
}
