// The answer to the frame that has come.
ghost use Rattle.std.specs.Prelude.{◌≡◌};
ghost use Rattle.console.specs.Console.{frame_answered};

use console::{Console, Phase, Piece};
use run::after_frame;

// The console once the frame is answered, as far as it has come.
pub fn with_frame(console: Console, table: &[u8]) -> Console
    ensures { result ≡ frame_answered console table.now }
{
    Console {
        phase: Phase::Frames,
        piece: Piece::empty(),
        run: after_frame(console.run, table, console.piece.as_slice()),
    }
}
