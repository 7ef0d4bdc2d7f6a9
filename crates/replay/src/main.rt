// Replays a night: call records on standard input, played on a fresh store, and a line for each on standard output.
#![tactic(auto)]

ghost use Rattle.std.specs.Prelude.{◌≡◌, length};

use records::{ROOM, WINDOW, replay};
use std::io;
use std::io::{Read, Write};

// The small store.
const STORE: usize = 29580;

// Reads to the end of the input or to what is no record. Lines are out before it waits for more. Each turn but the last reads a byte or
// more: the window is longer than the longest record, so that there is room behind what it keeps.
fn replay_input(
    input: &mut impl Read,
    output: &mut impl Write,
    store: &mut [u8],
    window: &mut [u8],
    text: &mut [u8],
) -> io::Result<()> {
    let mut kept = 0;
    let mut number = 0;
    let mut offset = 0;
    for _ in 0..u64::MAX {
        // What cannot be read is the end of the input, as if it had been cut there.
        let n = input.read(&mut window[kept..]).unwrap_or(0);
        let Some(step) = replay(store, window, kept + n, n == 0, number, offset, text) else {
            break;
        };
        output.write_all(&text[..step.written])?;
        if !step.more {
            break;
        }
        kept = step.kept;
        number = step.number;
        offset = step.offset;
    }
    Ok(())
}

// Both contracts say no more than the length, so that no proof writes the bytes out.
fn blank_window() -> [u8; WINDOW]
    ensures { 266240 ≡ length result }
{
    [0; WINDOW]
}

fn blank_text() -> [u8; ROOM]
    ensures { 738740 ≡ length result }
{
    [0; ROOM]
}

fn main(rt: HostRuntime) -> io::Result<()> {
    let mut store = [0u8; STORE];
    let mut window = blank_window();
    let mut text = blank_text();
    l0::fresh_store(&mut store);
    replay_input(
        &mut rt.stdin(),
        &mut rt.stdout(),
        &mut store,
        &mut window,
        &mut text,
    )
}
