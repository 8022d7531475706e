// The dispatcher's end: a book is read or opened, a frame answered.
ghost use Rattle.std.specs.Prelude.{◌≡◌};
ghost use Rattle.calls.specs.BoxCalls.{book_call, read_book_call, open_call_of, open_call};
ghost use Rattle.calls.specs.BoxCalls.{answer_call_of, answer_call};

use crate::word::word_of;
use codec::{RECORD_LENGTH, append};
use decoding::{encodes_state, state_in};
use encoding::{LINE_LENGTH, STATE_LENGTH};
use line::Refusal;
use placing::put_line;
use storing::{put_changes, put_state};

// Reads a book and writes the line that it describes.
#[unsafe(no_mangle)]
pub extern "C" fn quangevit_read_book(book: &[u8], line: &mut [u8]) -> u32
    ensures { book_call result line.new ≡ read_book_call book.now line.old }
{
    if line.len() != LINE_LENGTH {
        return word_of(Refusal::StrangeState as u8, 0);
    }
    let reading = book::read(book);
    put_line(&reading.line, line);
    word_of(book::number_of(reading.outcome), 0)
}

// Opens a book: fills the table and writes the state. Of the journal only the length is looked at.
#[unsafe(no_mangle)]
pub extern "C" fn quangevit_open(
    book: &[u8],
    state: &mut [u8],
    table: &mut [u8],
    journal: &[u8],
) -> u32
    ensures { open_call_of result state.new table.new
        ≡ open_call book.now state.old table.old journal.now }
{
    if state.len() != STATE_LENGTH {
        return word_of(Refusal::StrangeState as u8, 0);
    }
    let opened = opening::open_with(book, table, journal.len() / RECORD_LENGTH);
    put_state(&opened.state, state);
    word_of(opened.refusal, 0)
}

// Answers a frame. The answers' frames are at the beginning of `out`.
#[unsafe(no_mangle)]
pub extern "C" fn quangevit_answer(
    state: &mut [u8],
    table: &[u8],
    journal: &mut [u8],
    frame: &[u8],
    out: &mut [u8],
) -> u32
    ensures { answer_call_of result state.new journal.new out.new
        ≡ answer_call state.old table.now journal.old
        frame.now out.old }
{
    if !encodes_state(state) {
        return word_of(Refusal::StrangeState as u8, 0);
    }
    let before = state_in(state);
    let outcome = dispatcher::step(before, table, journal.len() / RECORD_LENGTH, frame, out);
    match outcome.reply.verdict {
        Err(n) => word_of(n, 0),
        Ok(n) => {
            append(journal, outcome.at, outcome.batch);
            put_changes(&outcome.reply.state, state);
            word_of(0, n)
        }
    }
}
