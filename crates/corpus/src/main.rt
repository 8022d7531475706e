// Runs the box over every stored input that its arguments name, and prints each run under the
// input's name. What it must print comes from the independent model.
#![tactic(auto)]

use std::env::{Env, FillError};
use std::rt::Files;
use std::{fs, io, str};

// As long as a name can be.
const NAME_LENGTH: usize = 4096;

// Runs the box over the input that argument `i` names, and says whether there is such an argument.
fn run_file<R: Env + Files + Print + Eprint>(rt: &R, i: usize) -> io::Result<bool> {
    let mut bytes = [0u8; NAME_LENGTH];
    let length = match rt.arg(i, &mut bytes) {
        Ok(length) => length,
        Err(FillError::NotPresent) => return Ok(false),
        Err(FillError::TooLong) => 0,
    };
    match str::from_utf8(&bytes[..length]) {
        Ok(name) => run_named(rt, name)?,
        Err(error) => eprintln!(rt; "argument {i}: {error}")?,
    }
    Ok(true)
}

// A file that cannot be opened is named on standard error.
fn run_named<R: Files + Print + Eprint>(rt: &R, name: &str) -> io::Result<()> {
    match fs::open(rt, name) {
        Ok(mut file) => {
            println!(rt; "# {name}")?;
            descriptor::serve(&mut file, &mut io::writer(rt))
        }
        Err(error) => eprintln!(rt; "{name}: {error}"),
    }
}

// The arguments are counted up, since `env::args` would need a heap.
fn main(rt: HostRuntime) -> io::Result<()> {
    for i in 1..usize::MAX {
        if !run_file(&rt, i)? {
            break;
        }
    }
    Ok(())
}
