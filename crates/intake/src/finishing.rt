// The end of the input.
ghost use Rattle.std.specs.Prelude.{◌≡◌};
ghost use Rattle.console.specs.Console.{desk_of, after_end, ended_console, last_frame, finished};

use console::{Console, Phase};
use pieces::{with_book, with_frame};

// 01: "or what there is if input ends; a shorter rest after whole frames is one torn frame".
#[tactic(auto, unfolding(console::specs::Console::finished))]
pub fn finish(console: Console, table: &mut [u8]) -> Console
    ensures { desk_of result table.new ≡ finished (desk_of console table.old) }
{
    match console.phase {
        Phase::Book => ended(with_book(console, table)),
        Phase::Frames => ended(last_frame(console, table)),
        Phase::Refused(_) | Phase::Ended => console,
    }
}

// A begun frame is answered as it is.
fn last_frame(console: Console, table: &[u8]) -> Console
    ensures { result ≡ last_frame console table.now }
{
    if console.piece.length == 0 {
        console
    } else {
        with_frame(console, table)
    }
}

// The console of a refused book stays one.
fn ended(console: Console) -> Console
    ensures { result ≡ ended_console console }
{
    Console {
        phase: after_end(console.phase),
        ..console
    }
}

fn after_end(phase: Phase) -> Phase
    ensures { result ≡ after_end phase }
{
    match phase {
        Phase::Refused(_) => phase,
        Phase::Book | Phase::Frames | Phase::Ended => Phase::Ended,
    }
}
