// A value of the buffer beside ours.
ghost use Rattle.std.specs.Prelude.{◌≡◌, ◌+◌, ◌≤◌, length};
ghost use Rattle.octets.specs.Bytes.{bytes_at};
ghost use Rattle.elements.specs.Cells.{cell_of};
ghost use Rattle.judging.specs.Judging.{same};

use elements::{Cell, listed_cell, register_cell};
use octets::get64;

// Where a thread element's value lies; the registers come first.
pub fn cell_of(id: u16) -> Cell
    ensures { result ≡ cell_of id }
{
    match register_cell(id) {
        Some(cell) => cell,
        None => listed_cell(id),
    }
}

// Byte by byte: std's test of two slices is a function of its own, which bench/stack.sh cannot follow.
fn same_bytes(a: &[u8], x: usize, b: &[u8], y: usize, n: usize) -> bool
    requires { (x + n ≤ length a.now) × (y + n ≤ length b.now) }
    ensures { result ≡ same (bytes_at a.now x n) (bytes_at b.now y n) }
{
    for i in 0..n {
        if a[x + i] != b[y + i] {
            return false;
        }
    }
    true
}

// Most values have eight bytes, which are compared at once.
pub fn same_value(a: &[u8], x: usize, b: &[u8], y: usize, n: usize) -> bool
    requires { (x + n ≤ length a.now) × (y + n ≤ length b.now) }
    ensures { result ≡ same (bytes_at a.now x n) (bytes_at b.now y n) }
{
    if n == 8 {
        return get64(a, x) == get64(b, y);
    }
    same_bytes(a, x, b, y, n)
}
