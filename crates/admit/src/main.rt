// Says of each file that its arguments name whether it holds a sheet, or which of refusals 1 to 11 it meets.
#![tactic(auto)]

use sheet::Sheet;
use std::rt::Files;
use std::{env, io};

// One byte more than the longest sheet has. A file is read no further: a longer one has the answer of its first part.
const ROOM: usize = Sheet::LENGTH_LIMIT + 1;

// A line for a file: its name and the answer for its bytes, which are none where it cannot be read.
fn answer_file(rt: &(impl Files + Print), path: &str) -> io::Result<()> {
    let mut bytes = [0u8; ROOM];
    let count = input::read_file(rt, path, &mut bytes);
    match sheet::answer(&bytes[..count]) {
        Ok(_) => println!(rt; "{path}: accepted"),
        Err(refusal) => println!(rt; "{path}: {refusal}"),
    }
}

// The files are answered in turn, and a line that cannot be printed ends the program.
fn main(rt: HostRuntime) -> io::Result<()> {
    for path in env::args(&rt)?.skip(1) {
        answer_file(&rt, path.as_str())?;
    }
    Ok(())
}
