// What comes of an input, in lent memory.
#![tactic(auto)]

ghost use Rattle.std.specs.Prelude.{◌≤◌, length};

use std::fs;
use std::io::Read;
use std::rt::Files;

// Reads until the memory is full, the input ends or a read fails, and returns how many bytes came: they stand at the memory's start.
// std's `read_exact` tells no count where the input ends early. A read may bring fewer bytes than there is room for, so that how many turns
// the loop takes is the system's matter.
pub fn read_full(input: &mut impl Read, memory: &mut [u8]) -> usize
    ensures { result ≤ length memory.new }
{
    let mut count = 0;
    while count < memory.len() {
        let Ok(came) = input.read(&mut memory[count..]) else {
            return count;
        };
        if came == 0 {
            return count;
        }
        count += came;
    }
    count
}

// The same of the file at a path. One that cannot be opened has no bytes. A file may have no end, so that what is read of it is as long
// as the memory and no Vec of all that comes.
pub fn read_file(rt: &impl Files, path: &str, memory: &mut [u8]) -> usize
    ensures { result ≤ length memory.new }
{
    let Ok(mut file) = fs::open(rt, path) else {
        return 0;
    };
    read_full(&mut file, memory)
}

// So many bytes of an input, and zeros past its end. No contract says which: of a file, none says what it holds.
pub fn read_array<const N: usize>(input: &mut impl Read) -> [u8; N] {
    let mut bytes = [0; N];
    read_full(input, &mut bytes);
    bytes
}

// A number of two bytes, the lower first.
pub fn read_u16(input: &mut impl Read) -> u16 {
    u16::from_le_bytes(read_array(input))
}
