// Reads a sheet from standard input and prints its plain text, or the refusal's line. An input that cannot be read to its end counts
// as the bytes that came.
#![tactic(auto)]

ghost use Rattle.std.specs.Prelude.{◌≡◌, length};
ghost use Rattle.board.specs.Input.{input_room};

use sheet::Sheet;
use skriduhol::BOARD_ROOM;
use std::io;

// One byte more than the longest sheet: a longer input has the answer of its first part.
const INPUT_ROOM: usize = Sheet::LENGTH_LIMIT + 1;

// Memory for the input, in a function of its own: its contract ties the length to the longest sheet's.
fn input_memory() -> [u8; INPUT_ROOM]
    ensures { input_room ≡ length result }
{
    [0; INPUT_ROOM]
}

fn main(rt: HostRuntime) -> io::Result<()> {
    let mut input = input_memory();
    let count = input::read_full(&mut rt.stdin(), &mut input);
    let mut out = [0u8; BOARD_ROOM];
    let length = skriduhol::board_output(&input[..count], &mut out);
    rt.write_all(&out[..length])
}
