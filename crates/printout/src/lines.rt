// The lines of a run, each after the text before it.
ghost use Rattle.std.specs.Prelude.{◌≡◌, ◌≤◌, length};
ghost use Rattle.printout.specs.Text.{record_line_length, end_line_length, followed};
ghost use Rattle.printout.specs.Lines.{spaced, kind_name, record_line, end_line, book_line};

use crate::text::{Text, with_number, with_word};
use frame::{AFE, AM, FA, FE, LA, LB, LE};
use journal::Record;

// 01: "each journal record (number, kind, train, from, to)". 02, card 2: "The printed line of a
// record ends with its track number."
pub fn with_record(text: Text, number: u8, entry: Record) -> Text
    ensures value { result ≡ followed text (record_line number entry) }
    ensures len_bound { length (record_line number entry) ≤ record_line_length }
{
    let text = with_number(text, number as u64);
    let text = with_kind(text, entry.kind);
    let text = with_spaced(text, entry.train.0 as u64);
    let text = with_spaced(text, entry.from.0 as u64);
    let text = with_spaced(text, entry.to.0 as u64);
    let text = with_spaced(text, entry.track.0 as u64);
    with_word(text, b"\n")
}

// 01: "then `end`, the record count and the count of refused frames".
pub fn with_end(text: Text, logged: u8, refused: u64) -> Text
    ensures value { result ≡ followed text (end_line logged refused) }
    ensures refused_len_bound { length (end_line logged refused) ≤ end_line_length }
{
    let text = with_word(text, b"end");
    let text = with_spaced(text, logged as u64);
    let text = with_spaced(text, refused);
    with_word(text, b"\n")
}

// 01: "for a refused book only `book` and the number".
pub fn with_book(text: Text, refusal: u8) -> Text
    ensures value { result ≡ followed text (book_line refusal) }
    ensures refusal_len_bound { length (book_line refusal) ≤ end_line_length }
{
    let text = with_word(text, b"book");
    let text = with_spaced(text, refusal as u64);
    with_word(text, b"\n")
}

#[tactic(auto, unfolding(crate::specs::Lines::kind_name))]
fn with_kind(text: Text, kind: u8) -> Text
    ensures { result ≡ followed text (kind_name kind) }
{
    match kind {
        FA => with_word(text, b" FA"),
        FE => with_word(text, b" FE"),
        AFE => with_word(text, b" AFE"),
        AM => with_word(text, b" AM"),
        LA => with_word(text, b" LA"),
        LE => with_word(text, b" LE"),
        LB => with_word(text, b" LB"),
        _ => with_word(text, b" ?"),
    }
}

fn with_spaced(text: Text, n: u64) -> Text
    ensures { result ≡ followed text (spaced n) }
{
    with_number(with_word(text, b" "), n)
}
