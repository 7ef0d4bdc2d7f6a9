// A part of a lent slice copied into another, or cleared.
ghost use Rattle.std.specs.Prelude.{◌≡◌, ◌+◌, ◌≤◌, length};
ghost use Rattle.octets.specs.Bytes.{bytes_at, put, zeros};

use super::reading::array_at;
use super::writing::put_array;

// N bytes by way of a value: one load and one store, where a slice that is copied into another first tests whether they overlap.
fn copy_array<const N: usize>(src: &[u8], from: usize, dst: &mut [u8], to: usize)
    requires { (from + N ≤ length src.now) × (to + N ≤ length dst.old) }
    ensures { dst.new ≡ put dst.old to (bytes_at src.now from N) }
{
    put_array::<N>(dst, to, array_at(src, from));
}

// The whole words of a copy. Tells how many bytes it copied. It counts by hand: as a `for` over the words it took 16 bytes more of stack,
// which the deepest call does not have.
fn copy_words(src: &[u8], from: usize, dst: &mut [u8], to: usize, n: usize) -> usize
    requires { (from + n ≤ length src.now) × (to + n ≤ length dst.old) }
    ensures { (result ≤ n) × (dst.new ≡ put dst.old to (bytes_at src.now from result)) }
{
    let mut i: usize = 0;
    while 8 <= n - i {
        copy_array::<8>(src, from + i, dst, to + i);
        i += 8;
    }
    i
}

// What whole words leave. A loop, since the library calls no `memmove`, which std's copy of a slice becomes.
fn copy_bytes(src: &[u8], from: usize, dst: &mut [u8], to: usize, n: usize)
    requires { (from + n ≤ length src.now) × (to + n ≤ length dst.old) }
    ensures { dst.new ≡ put dst.old to (bytes_at src.now from n) }
{
    for i in 0..n {
        dst[to + i] = src[from + i];
    }
}

fn copy_any(src: &[u8], from: usize, dst: &mut [u8], to: usize, n: usize)
    requires { (from + n ≤ length src.now) × (to + n ≤ length dst.old) }
    ensures { dst.new ≡ put dst.old to (bytes_at src.now from n) }
{
    let i = copy_words(src, from, dst, to, n);
    copy_bytes(src, from + i, dst, to + i, n - i);
}

// The sizes of nearly all values first, so that this stands in line in a walk, where the size is known.
pub fn copy(src: &[u8], from: usize, dst: &mut [u8], to: usize, n: usize)
    requires { (from + n ≤ length src.now) × (to + n ≤ length dst.old) }
    ensures { dst.new ≡ put dst.old to (bytes_at src.now from n) }
{
    match n {
        8 => copy_array::<8>(src, from, dst, to),
        16 => copy_array::<16>(src, from, dst, to),
        4 => copy_array::<4>(src, from, dst, to),
        _ => copy_any(src, from, dst, to, n),
    }
}

#[tactic(auto, using(crate::proofs::Bytes::part_cleared))]
pub fn clear(dst: &mut [u8], at: usize, n: usize)
    requires { at + n ≤ length dst.old }
    ensures { dst.new ≡ put dst.old at (zeros n) }
{
    dst[at..at + n].fill(0);
}
