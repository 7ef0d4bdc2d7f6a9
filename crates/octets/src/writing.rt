// Big-endian numbers and fields of bits written into a lent slice.
ghost use Rattle.std.specs.Prelude.{◌≡◌, ◌+◌, ◌/◌, ◌≤◌, ◌<◌, ◌^◌, length};
ghost use Rattle.octets.specs.Bytes.{put, digits};
ghost use Rattle.octets.specs.Bits.{ins, put_bits};

use super::reading::get32;

// N bytes written: the compiler makes one store of them, for N up to 16.
#[tactic(auto, using(crate::proofs::Bytes::part_put))]
pub(crate) fn put_array<const N: usize>(s: &mut [u8], at: usize, bytes: [u8; N])
    requires { at + N ≤ length s.old }
    ensures { s.new ≡ put s.old at bytes.entry }
{
    s[at..at + N].copy_from_slice(&bytes);
}

#[tactic(auto, using(crate::proofs::Conversions::written))]
pub fn put16(s: &mut [u8], at: usize, v: u16)
    requires { at + 2 ≤ length s.old }
    ensures { s.new ≡ put s.old at (digits 2 v) }
{
    put_array(s, at, v.to_be_bytes());
}

#[tactic(auto, using(crate::proofs::Conversions::written))]
pub fn put32(s: &mut [u8], at: usize, v: u32)
    requires { at + 4 ≤ length s.old }
    ensures { s.new ≡ put s.old at (digits 4 v) }
{
    put_array(s, at, v.to_be_bytes());
}

#[tactic(auto, using(crate::proofs::Conversions::written))]
pub fn put64(s: &mut [u8], at: usize, v: u64)
    requires { at + 8 ≤ length s.old }
    ensures { s.new ≡ put s.old at (digits 8 v) }
{
    put_array(s, at, v.to_be_bytes());
}

// x with v in the n digits from digit k up; in 64 bits, where a number of 32 can be shifted out whole.
fn with_digits(x: u64, k: u64, n: u64, v: u64) -> u32
    requires { (x < 2 ^ 32) × (k + n ≤ 32) × (v < 2 ^ n) }
    ensures { result ≡ ins x k n v }
{
    let high = x >> (k + n) << (k + n);
    let low = x - (x >> k << k);
    (high + (v << k) + low) as u32
}

// The number v in the `width` bits from bit `at` on; the bits beside them are written as they were read.
pub fn put_bits(s: &mut [u8], at: usize, width: usize, v: u64)
    requires { (at / 8 + 4 ≤ length s.old) × (width ≤ 25) × (v < 2 ^ width) }
    ensures { s.new ≡ put_bits s.old at width v }
{
    let p = at / 8;
    let behind = 32 - width - at % 8;
    let x = u64::from(get32(s, p));
    put32(s, p, with_digits(x, behind as u64, width as u64, v));
}
