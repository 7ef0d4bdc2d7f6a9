// Lists the guest state buffer on standard input, judged as a thread set.
#![tactic(auto)]

ghost use Rattle.std.specs.Io.{ReadsAtMost};

use render::{ROOM, render};
use std::io;
use std::io::{Read, Write};

// Reads until the buffer is full or the input ends, and returns how many bytes stand at the buffer's front then.
fn fill(input: &mut impl Read, buffer: &mut [u8]) -> io::Result<usize>
    ensures { ReadsAtMost result buffer.new }
{
    let mut filled = 0;
    while filled < buffer.len() {
        let n = input.read(&mut buffer[filled..])?;
        if n == 0 {
            break;
        }
        filled += n;
    }
    Ok(filled)
}

fn main(rt: HostRuntime) -> io::Result<()> {
    // One byte past the longest buffer tells one that is too long.
    let mut input = [0u8; 65537];
    let mut text = [0u8; ROOM];
    let n = fill(&mut rt.stdin(), &mut input)?;
    let Some(len) = render(&input[..n], &mut text) else {
        return Ok(());
    };
    rt.stdout().write_all(&text[..len])
}
