// Taking the bytes that come. Each is put into the console where it stands: a console has the whole
// journal in it, and to copy that takes longer than to take a byte.
ghost use Rattle.std.specs.Prelude.{◌≡◌};
ghost use Rattle.console.specs.Console.{desk_of, with_next, book_byte, frame_byte, taken_byte, taken_bytes};

use console::{Console, Phase};
use frame::FRAME_LENGTH;
use pieces::{is_book, with_book, with_frame};

// The console once some bytes were taken, one after the other.
pub fn take(console: Console, table: &mut [u8], bytes: &[u8]) -> Console
    ensures { desk_of result table.new
        ≡ taken_bytes (desk_of console table.old) bytes.now }
{
    let mut after = console;
    for byte in bytes {
        take_byte(&mut after, table, *byte);
    }
    after
}

// Nothing is taken after a refused book, and nothing after the end.
#[tactic(auto, unfolding(console::specs::Console::taken_byte))]
fn take_byte(console: &mut Console, table: &mut [u8], byte: u8)
    ensures { desk_of console.new table.new ≡ taken_byte (desk_of console.old table.old) byte }
{
    match console.phase {
        Phase::Book => book_byte(console, table, byte),
        Phase::Frames => frame_byte(console, table, byte),
        Phase::Refused(_) | Phase::Ended => (),
    }
}

// The book is opened as soon as it is whole.
fn book_byte(console: &mut Console, table: &mut [u8], byte: u8)
    ensures { desk_of console.new table.new ≡ book_byte (desk_of console.old table.old) byte }
{
    take_next(console, byte);
    if is_book(console.piece) {
        *console = with_book(*console, table);
    }
}

// A frame is answered with its seventh byte.
fn frame_byte(console: &mut Console, table: &[u8], byte: u8)
    ensures { console.new ≡ frame_byte console.old table.now byte }
{
    take_next(console, byte);
    if FRAME_LENGTH <= console.piece.length {
        *console = with_frame(*console, table);
    }
}

// One more byte of the piece.
fn take_next(console: &mut Console, byte: u8)
    ensures { console.new ≡ with_next console.old byte }
{
    console.piece = console.piece.with_byte(byte);
}
