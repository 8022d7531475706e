// A run of the box: from frame to frame.
ghost use Rattle.std.specs.Prelude.{◌≡◌};
ghost use Rattle.console.specs.Run.{fresh_run, count_after, after_frame};

use console::Run;
use dispatcher::OUT_LENGTH;
use journal::Log;
use rules::{State, Verdict};

// The run before its first frame.
pub fn begun(state: State, log: Log) -> Run
    ensures { result ≡ fresh_run state log }
{
    Run {
        state,
        log,
        refused: 0,
    }
}

// The run after one more frame.
#[tactic(auto, unfolding(console::specs::Run::after_frame))]
pub fn after_frame(run: Run, table: &[u8], frame: &[u8]) -> Run
    ensures { result ≡ after_frame run table.now frame.now }
{
    let mut out = [0u8; OUT_LENGTH];
    let turn = dispatcher::answer_log(run.state, table, run.log, frame, &mut out);
    Run {
        state: turn.reply.state,
        log: turn.log,
        refused: count_after(run.refused, turn.reply.verdict),
    }
}

// One more for a refused frame, as far as 64 bits count.
fn count_after(refused: u64, verdict: Verdict) -> u64
    ensures { result ≡ count_after refused verdict }
{
    match verdict {
        Ok(_) => refused,
        Err(_) => refused.saturating_add(1),
    }
}
