// What a console waits for, and what is printed of it.
ghost use Rattle.std.specs.Prelude.{◌≡◌, ◌≤◌};
ghost use Rattle.printout.specs.Text.{text_length, text_of};
ghost use Rattle.console.specs.Console.{fresh_console, awaits};
ghost use Rattle.console.specs.Transcript.{printed};

use console::{Console, Phase, Piece};
use printout::{Text, book_text, run_text};
use run::begun;

// The console before any byte.
pub fn fresh() -> Console
    ensures { result ≡ fresh_console }
{
    Console {
        phase: Phase::Book,
        piece: Piece::empty(),
        run: begun(opening::empty_state(), logging::blank_log()),
    }
}

// Whether a byte is still taken.
pub fn awaits(console: Console) -> bool
    ensures { result ≡ awaits console.phase }
{
    matches!(console.phase, Phase::Book | Phase::Frames)
}

// What is printed: of a refused book its line, of a run its records and the counts.
pub fn printed(console: Console) -> Text
    ensures length_le_text_length { result.length ≤ text_length }
    ensures value { result ≡ text_of (printed console) }
{
    let run = console.run;
    match console.phase {
        Phase::Refused(number) => book_text(number),
        Phase::Book | Phase::Frames | Phase::Ended => run_text(
            run.log,
            run.state.logged,
            run.refused,
        ),
    }
}
