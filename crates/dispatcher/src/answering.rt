// The answer to a frame: the step, and then its records are written to the journal.
ghost use Rattle.std.specs.Prelude.{◌≡◌};
ghost use Rattle.rules.specs.Answer.{answer_of, answer};

use crate::stepping::step;
use journal::{Log, Record};
use logging::{log_length, log_with};
use rules::{Reply, State};

// Answers a frame. The answers' frames are at the beginning of `out`.
pub fn answer(
    state: State,
    table: &[u8],
    journal: &mut [Record],
    frame: &[u8],
    out: &mut [u8],
) -> Reply
    ensures { answer_of result journal.new out.new
        ≡ answer state table.now journal.old frame.now out.old }
{
    let o = step(state, table, journal.len(), frame, out);
    logging::append(journal, o.at, o.batch);
    o.reply
}

// A reply, and the journal afterwards.
#[derive(Clone, Copy)]
pub struct Logged {
    pub reply: Reply,
    pub log: Log,
}

// The same with a journal by value, by `log_length` and `log_with`: what is promised of these two so
// holds what the programs run, which it would not if this called `answer`.
pub fn answer_log(state: State, table: &[u8], log: Log, frame: &[u8], out: &mut [u8]) -> Logged
    ensures { answer_of result.reply result.log.records out.new
        ≡ answer state table.now log.records frame.now out.old }
{
    let o = step(state, table, log_length(log.records), frame, out);
    let log = log_with(log, o.at, o.batch);
    Logged {
        reply: o.reply,
        log,
    }
}
