// All that is printed of a run, or of a refused book.
ghost use Rattle.std.specs.Prelude.{◌≡◌, ◌≤◌};
ghost use Rattle.printout.specs.Text.{text_length, text_of};
ghost use Rattle.printout.specs.Lines.{run_lines, book_line};

use crate::lines::{with_book, with_end, with_record};
use crate::text::Text;
use journal::Log;

// The records below the count, then the counts.
pub fn run_text(log: Log, logged: u8, refused: u64) -> Text
    ensures length_le_text_length { result.length ≤ text_length }
    ensures value { result ≡ text_of (run_lines log.records logged refused) }
{
    let mut text = Text::empty();
    for i in 0..logged {
        text = with_record(text, i, logging::log_at(log, i as usize));
    }
    with_end(text, logged, refused)
}

pub fn book_text(refusal: u8) -> Text
    ensures length_le_text_length { result.length ≤ text_length }
    ensures value { result ≡ text_of (book_line refusal) }
{
    with_book(Text::empty(), refusal)
}
