// An element written: its header and its value, which stands in another slice.
ghost use Rattle.std.specs.Prelude.{◌≡◌, ◌+◌, ◌≤◌, ◌<◌, ◌^◌, length};
ghost use Rattle.octets.specs.Bytes.{bytes_at, put};
ghost use Rattle.gsb.specs.Message.{element_bytes};

use octets::{copy, put16};

// Returns where the next element goes.
pub fn put_element(b: &mut [u8], at: usize, id: u16, src: &[u8], from: usize, size: usize) -> usize
    requires { (at + 4 + size ≤ length b.old) × (from + size ≤ length src.now) × (size < 2 ^ 16) }
    ensures { (result ≡ at + 4 + size) × (b.new ≡ put b.old at (element_bytes id (bytes_at src.now from size))) }
{
    put16(b, at, id);
    put16(b, at + 2, size as u16);
    copy(src, from, b, at + 4, size);
    at + 4 + size
}
