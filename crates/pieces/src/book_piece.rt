// The book that is being read, as far as it has come, and its opening.
ghost use Rattle.std.specs.Prelude.{◌≡◌, ◌+◌, min};
ghost use Rattle.common.specs.Word.{word};
ghost use Rattle.line.specs.Claims.{longest};
ghost use Rattle.console.specs.Piece.{is_book};
ghost use Rattle.console.specs.Console.{desk_of, after_opening, book_opened};

use console::{Console, Phase, Piece, Run};
use line::{LONGEST_BOOK, word};
use rules::Opened;
use run::begun;

// Whether it is a whole book.
#[tactic(auto, unfolding(console::specs::Piece::is_book, console::specs::Piece::book_length))]
pub fn is_book(piece: Piece) -> bool
    ensures { result ≡ is_book piece }
{
    book_length(piece.bytes[0], piece.bytes[1]) <= piece.length
}

// 01: "The book is two bytes and as many as they name, at most as many in all as the longest book
// has", 58 with edition 3.
fn book_length(high: u8, low: u8) -> usize
    ensures { result ≡ min longest (2 + word high low) }
{
    LONGEST_BOOK.min(2 + word::word(high, low) as usize)
}

// The console once the book is opened, as far as it has come.
pub fn with_book(console: Console, table: &mut [u8]) -> Console
    ensures { desk_of result table.new ≡ book_opened (desk_of console table.old) }
{
    let opened = opening::open_log(console.piece.as_slice(), table, console.run.log);
    after_opening(opened, console.run)
}

// A refused book takes no frames.
#[tactic(auto, unfolding(console::specs::Console::after_opening))]
fn after_opening(opened: Opened, run: Run) -> Console
    ensures { result ≡ after_opening opened.state opened.refusal run }
{
    if opened.refusal == 0 {
        Console {
            phase: Phase::Frames,
            piece: Piece::empty(),
            run: begun(opened.state, run.log),
        }
    } else {
        Console {
            phase: Phase::Refused(opened.refusal),
            piece: Piece::empty(),
            run,
        }
    }
}
