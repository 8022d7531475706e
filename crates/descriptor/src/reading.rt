// Reading to the end of the input. A read that fails is the end, and so is one that gives nothing.
ghost use Rattle.console.specs.Console.{desk_of, fresh_console};
ghost use Rattle.descriptor.specs.Reading.{Ends, EndsOf};

use console::Console;
use std::io::Read;

// As many bytes as one read asks for.
const READ_LENGTH: usize = 4096;

// The console once the input has ended. Nothing is read after the end, and nothing after a refused
// book. A proved loop has to end, and nothing says that the input does: no run uses up its turns.
pub fn read_all<R: Read>(input: &mut R, table: &mut [u8]) -> Console
    ensures ends { Ends (desk_of fresh_console table.old) (desk_of result table.new) }
    ensures given { EndsOf (R.remaining input.old) (R.remaining input.new)
        (desk_of fresh_console table.old) (desk_of result table.new) }
{
    let mut console = intake::fresh();
    let mut bytes = [0u8; READ_LENGTH];
    for _ in 0..u64::MAX {
        let n = input.read(&mut bytes).unwrap_or(0);
        console = intake::take(console, table, &bytes[..n]);
        if n == 0 || !intake::awaits(console) {
            break;
        }
    }
    intake::finish(console, table)
}
