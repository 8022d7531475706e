// The run is read, and what it leaves is printed.
ghost use Rattle.std.specs.Prelude.{◌≤◌, OnOk, OnErr};
ghost use Rattle.printout.specs.Text.{text_length};
ghost use Rattle.descriptor.specs.Reading.{Transcript, TranscriptOf, Served, Spent};

use crate::reading::read_all;
use printout::Text;
use std::io;
use std::io::{Read, Write};
use table::TABLE_LENGTH;

// Reads a book and frames from the input, and prints the run. The error is that of a write: the input
// is read all the same, and of the run the writer may have a part.
pub fn serve<R: Read, W: Write>(input: &mut R, output: &mut W) -> io::Result<()>
    ensures ok { OnOk result (Served (R.remaining input.old) (R.remaining input.new)
        (W.contents output.old) (W.contents output.new)) }
    ensures err { OnErr result (Spent (R.remaining input.old) (R.remaining input.new)) }
{
    let text = transcript(input);
    output.write_all(text.as_slice())
}

// What is printed for the bytes of the input.
fn transcript<R: Read>(input: &mut R) -> Text
    ensures length_le_text_length { result.length ≤ text_length }
    ensures transcript { Transcript result }
    ensures given { TranscriptOf (R.remaining input.old) (R.remaining input.new) result }
{
    let mut table = [0u8; TABLE_LENGTH];
    let console = read_all(input, &mut table);
    intake::printed(console)
}
