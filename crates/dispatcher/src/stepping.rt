// The answer to a frame but for the journal, of which only the length goes in: the records that are
// to be written come back by value.
ghost use Rattle.std.specs.Prelude.{◌≡◌, ◌≤◌, length};
ghost use Rattle.common.specs.Part.{replaced};
ghost use Rattle.journal.specs.Journal.{empty_batch};
ghost use Rattle.rules.specs.Answer.{out_length, frames_of};
ghost use Rattle.dispatcher.specs.Step.{messages_of, outcome_of, Stepped};

use crate::sending::{send, send_again};
use accepting::{Repeat, accept, again, is_repeat};
use checks::check_frame;
use journal::Batch;
use rules::{Reply, State, Verdict};

// The reply, and the records to be written from place `at` on.
#[derive(Clone, Copy)]
pub struct Outcome {
    pub reply: Reply,
    pub at: usize,
    pub batch: Batch,
}

// The answers' frames are at the beginning of `out`. A refused frame and a repeat have no records, so
// that nothing is written.
pub fn step(state: State, table: &[u8], records: usize, frame: &[u8], out: &mut [u8]) -> Outcome
    ensures { Stepped state table.now records frame.now out.old
        result out.new }
{
    if let Err(number) = check_frame(state, table.len(), records, frame, out.len()) {
        return refused(state, number);
    }
    let message = framing::read(frame);
    let repeat = again(state, message);
    if is_repeat(repeat) {
        return told_again(state, repeat, out);
    }
    let work = accept(state, table, message);
    // The first record is the frame's own.
    let sent = send(&work.batch.items[1..work.batch.n], out);
    outcome_of(work.state, Ok(sent), state.logged as usize, work.batch)
}

// 02, card 6: "neither is logged or changes the state".
fn told_again(state: State, repeat: Repeat, out: &mut [u8]) -> Outcome
    requires { out_length ≤ length out.old }
    ensures value { result ≡ outcome_of state (Ok (length (messages_of repeat))) state.logged empty_batch }
    ensures out_after { out.new ≡ replaced out.old 0 (frames_of (messages_of repeat)) }
{
    let sent = send_again(repeat, out);
    outcome_of(state, Ok(sent), state.logged as usize, logging::empty())
}

fn refused(state: State, number: u8) -> Outcome
    ensures { result ≡ outcome_of state (Err number) 0 empty_batch }
{
    outcome_of(state, Err(number), 0, logging::empty())
}

fn outcome_of(state: State, verdict: Verdict, at: usize, batch: Batch) -> Outcome
    ensures { result ≡ outcome_of state verdict at batch }
{
    let reply = Reply { state, verdict };
    Outcome { reply, at, batch }
}
