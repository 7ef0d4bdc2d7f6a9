// A byte widened, the bytes of a number swapped, the first bytes of a lent slice. `reading`, `writing` and `copying` stand on
// these: everything above reads and writes lent memory through the four.
#![tactic(auto)]

mod copying;
mod reading;
mod writing;

ghost use Rattle.std.specs.Prelude.{◌≡◌, ◌≤◌, ◌<◌, length};
ghost use Rattle.octets.specs.Bytes.{bytes_at};
ghost use Rattle.octets.specs.Private.{swap2};

pub use copying::{clear, copy};
pub use reading::{get_bits, get_turned, get16, get32, get56, get64, pair};
pub use writing::{put_bits, put16, put32, put64};

// A byte as a wide number, so that a read asks its caller for no cast.
pub fn wide(x: u8) -> u64
    ensures { (result ≡ x) × (result < 256) }
{
    u64::from(x)
}

// The bytes of a number in the other order.
#[tactic(auto, using(crate::proofs::Conversions::swapped2))]
pub fn swap16(v: u16) -> u16
    ensures { result ≡ swap2 v }
{
    v.swap_bytes()
}

// The first bytes of a lent slice.
pub fn first_bytes<'a>(b: &'a [u8], n: usize) -> &'a [u8]
    requires { n ≤ length b.now }
    ensures { result.now ≡ bytes_at b.now 0 n }
{
    &b[..n]
}
