// An element framed: where the next one starts, or that this one is cut. Neither its ID nor its size is judged.
ghost use Rattle.std.specs.Prelude.{◌≡◌, ◌≤◌, length};
ghost use Rattle.gsb.specs.Lookup.{framed};
ghost use Rattle.gsb.specs.Private.{placed};

use super::BadElement;
use answer::{Bad, Place};
use octets::{get_turned, get16};
use rules::within;

fn frame_any(b: &[u8], at: usize) -> Result<usize, Bad>
    requires { at ≤ length b.now }
    ensures { result ≡ framed b.now at }
{
    if b.len() - at < 4 {
        return Err(Bad::Size);
    }
    let size = get16(b, at + 2) as usize;
    if b.len() - at - 4 < size {
        return Err(Bad::Size);
    }
    Ok(at + 4 + size)
}

// The sizes of nearly all elements are told by the number above them, so that the next element does not wait for this one's.
pub fn frame(b: &[u8], at: usize) -> Result<usize, Bad>
    requires { at ≤ length b.now }
    ensures { result ≡ framed b.now at }
{
    if b.len() - at < 20 {
        return frame_any(b, at);
    }
    let key = get_turned(b, at) as u64;
    if within(0x8_0000, 0x8_FFFF, key) {
        return Ok(at + 12);
    }
    if within(0x10_0000, 0x10_FFFF, key) {
        return Ok(at + 20);
    }
    frame_any(b, at)
}

// By the size alone, where the ID is not wanted. An order test stands between the four sizes, since the compiler makes a jump
// table of four tests in a row.
pub fn frame_by_size(b: &[u8], at: usize) -> Result<usize, Bad>
    requires { at ≤ length b.now }
    ensures { result ≡ framed b.now at }
{
    if b.len() - at < 20 {
        return frame_any(b, at);
    }
    let size = get16(b, at + 2);
    if size == 8 {
        return Ok(at + 12);
    }
    if size < 8 {
        if size == 4 {
            return Ok(at + 8);
        }
        if size == 0 {
            return Ok(at + 4);
        }
        return frame_any(b, at);
    }
    if size == 16 {
        return Ok(at + 20);
    }
    frame_any(b, at)
}

// What a loop leaves with `?`: a bad element told with its place.
pub fn placed(verdict: Result<usize, Bad>, index: usize, offset: usize) -> Result<usize, BadElement>
    ensures { result ≡ placed verdict index offset }
{
    verdict.map_err(|bad| BadElement {
        bad,
        place: Place { index, offset },
    })
}
