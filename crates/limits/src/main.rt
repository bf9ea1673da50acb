// Prints the plain text of drawings in rooms of memory. Its arguments are a room in bytes and the file of a drawing, by turns. The
// memory is lent full of dots, and printed as it stands after.
#![tactic(auto)]

ghost use Rattle.std.specs.Prelude.{◌≤◌};

use skriduhol::BOARD_ROOM;
use std::rt::Files;
use std::{env, io};

// The room that decimal digits say, at most the board's; another byte counts as 0. A number that `parse` refuses has a room too.
fn room_of(digits: &[u8]) -> usize
    ensures { result ≤ 65536 }
{
    let mut room = 0;
    for &b in digits {
        let digit = char::from(b).to_digit(10).unwrap_or(0) as usize;
        room = (10 * room + digit).min(BOARD_ROOM);
    }
    room
}

// The answer for a room of dots in a line, and then the memory. A refusal's line has its column, whatever that is.
fn write_answer(rt: &impl Print, s: &[u8], room: usize) -> io::Result<()>
    requires { room ≤ 65536 }
{
    let mut memory = [b'.'; BOARD_ROOM];
    match skriduhol::plain_text(s, &mut memory[..room]) {
        Ok(length) => println!(rt; "{length} bytes")?,
        Err(located) => println!(rt; "{} column {}", located.refusal, located.column)?,
    }
    rt.write_all(&memory[..room])?;
    println!(rt)
}

// The same of the drawing in a file, of which no more is read than the buffer holds: that is longer than the longest sheet.
fn answer_file(rt: &(impl Files + Print), path: &str, room: usize) -> io::Result<()>
    requires { room ≤ 65536 }
{
    let mut bytes = [0u8; BOARD_ROOM];
    let count = input::read_file(rt, path, &mut bytes);
    print!(rt; "{path} in {room}: ")?;
    write_answer(rt, &bytes[..count], room)
}

fn main(rt: HostRuntime) -> io::Result<()> {
    let arguments = env::args(&rt)?.skip(1).collect::<Vec<String>>(rt.alloc())?;
    for pair in arguments.chunks(2) {
        let path = pair.get(1).map_or("", |path| path.as_str());
        answer_file(&rt, path, room_of(pair[0].as_bytes()))?;
    }
    Ok(())
}
