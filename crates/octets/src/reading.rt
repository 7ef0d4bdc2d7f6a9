// Big-endian numbers and fields of bits read from a lent slice.
ghost use Rattle.std.specs.Prelude.{◌≡◌, ◌+◌, ◌*◌, ◌/◌, ◌≤◌, ◌<◌, ◌^◌, length};
ghost use Rattle.octets.specs.Bytes.{bytes_at, be};
ghost use Rattle.octets.specs.Bits.{bits};
ghost use Rattle.octets.specs.Private.{swap2};

use super::wide;

// N bytes by value: the compiler makes one load of them, for N up to 16.
#[tactic(auto, using(crate::proofs::Bytes::between_lent))]
pub(crate) fn array_at<const N: usize>(b: &[u8], at: usize) -> [u8; N]
    requires { at + N ≤ length b.now }
    ensures { result ≡ bytes_at b.now at N }
{
    let mut bytes = [0; N];
    bytes.copy_from_slice(&b[at..at + N]);
    bytes
}

// Two bytes as the machine reads them: enough to tell whether they are those of a number that was swapped once.
#[tactic(auto, using(crate::proofs::Conversions::read_pair, crate::proofs::Conversions::pair_lt))]
pub fn pair(b: &[u8], at: usize) -> u16
    requires { at + 2 ≤ length b.now }
    ensures { (result ≡ swap2 (be b.now at 2)) × (be b.now at 2 < 2 ^ 16) }
{
    u16::from_le_bytes(array_at(b, at))
}

// Wide enough for an ID, a size or a slot word.
#[tactic(auto, using(crate::proofs::Conversions::read2))]
pub fn get16(b: &[u8], at: usize) -> u16
    requires { at + 2 ≤ length b.now }
    ensures { result ≡ be b.now at 2 }
{
    u16::from_be_bytes(array_at(b, at))
}

// The count of a buffer, and an element's header.
#[tactic(auto, using(crate::proofs::Conversions::read4))]
pub fn get32(b: &[u8], at: usize) -> u32
    requires { at + 4 ≤ length b.now }
    ensures { result ≡ be b.now at 4 }
{
    u32::from_be_bytes(array_at(b, at))
}

// Two numbers of 2 bytes in one, the second above the first: an element's size and its ID are tested together.
#[tactic(auto, using(crate::proofs::Conversions::turned, crate::proofs::Conversions::pair_lt))]
pub fn get_turned(b: &[u8], at: usize) -> u32
    requires { at + 4 ≤ length b.now }
    ensures { (result ≡ be b.now (at + 2) 2 * 2 ^ 16 + be b.now at 2) × (be b.now at 2 < 2 ^ 16) }
{
    get32(b, at).rotate_left(16)
}

#[tactic(auto, using(crate::proofs::Conversions::read8))]
pub fn get64(b: &[u8], at: usize) -> u64
    requires { at + 8 ≤ length b.now }
    ensures { result ≡ be b.now at 8 }
{
    u64::from_be_bytes(array_at(b, at))
}

// A number of seven bytes: what is left of a head of 31 bytes behind three words.
pub fn get56(b: &[u8], at: usize) -> u64
    requires { at + 7 ≤ length b.now }
    ensures { (result ≡ be b.now at 7) × (result < 2 ^ 56) }
{
    let high = u64::from(get32(b, at));
    let low = u64::from(get16(b, at + 4));
    (high * 0x1_0000 + low) * 256 + wide(b[at + 6])
}

// The `width` bits from bit `at` on, in one load: the bits before them are shifted out, then those behind.
pub fn get_bits(b: &[u8], at: usize, width: usize) -> u32
    requires { (at / 8 + 4 ≤ length b.now) × (1 ≤ width) × (width ≤ 25) }
    ensures { result ≡ bits b.now at width }
{
    get32(b, at / 8) << (at % 8) >> (32 - width)
}
