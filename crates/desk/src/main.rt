// The program of the dispatcher's desk: a book and frames on standard input, the run on standard
// output.
#![tactic(auto)]

use std::io;

fn main(rt: HostRuntime) -> io::Result<()> {
    descriptor::serve(&mut rt.stdin(), &mut rt.stdout())
}
