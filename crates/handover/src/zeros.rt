// A value that is all zero.
ghost use Rattle.std.specs.Prelude.{◌≡◌, ◌+◌, ◌≤◌, length};
ghost use Rattle.octets.specs.Bytes.{bytes_at};
ghost use Rattle.handover.specs.Form.{is_zero};

use octets::{get32, get64};

// Any size.
fn zero_bytes(s: &[u8], at: usize, n: usize) -> bool
    requires { at + n ≤ length s.now }
    ensures { result ≡ is_zero (bytes_at s.now at n) }
{
    s[at..at + n].iter().all(|byte| *byte == 0)
}

// The sizes of thread elements by whole words and with no branch: which values are there can't be foretold.
pub fn is_zero(s: &[u8], at: usize, n: usize) -> bool
    requires { at + n ≤ length s.now }
    ensures { result ≡ is_zero (bytes_at s.now at n) }
{
    if n == 8 {
        return get64(s, at) == 0;
    }
    if n == 16 {
        return get64(s, at) | get64(s, at + 8) == 0;
    }
    if n == 4 {
        return get32(s, at) == 0;
    }
    zero_bytes(s, at, n)
}
