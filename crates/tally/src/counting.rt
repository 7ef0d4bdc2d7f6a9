// The elements of a buffer that set something.
ghost use Rattle.std.specs.Prelude.{◌≡◌, ◌+◌, ◌≤◌, length};
ghost use Rattle.gsb.specs.Walk.{next_at};
ghost use Rattle.tally.specs.Private.{weight_at, set_in};

use octets::{get16, get32};

// 0 for a NOP, 1 for any other element.
fn weight(b: &[u8], at: usize) -> u64
    requires { at + 4 ≤ length b.now }
    ensures { (result ≡ weight_at b.now at) × (result ≤ 1) }
{
    if get16(b, at) == 0 { 0 } else { 1 }
}

fn next(b: &[u8], at: usize) -> usize
    requires { at + 4 ≤ length b.now }
    ensures { (result ≡ next_at b.now at) × (result ≤ at + 65539) }
{
    at + 4 + get16(b, at + 2) as usize
}

// How many there are, NOPs left out. The buffer was accepted: every header fits, and the test of it only keeps the reads within the bytes.
pub fn elements_set(b: &[u8]) -> u64
    ensures { result ≡ set_in b.now }
{
    if b.len() < 4 {
        return 0;
    }
    let count = get32(b, 0) as usize;
    let mut at = 4;
    let mut total = 0;
    for _i in 0..count {
        if b.len() < at + 4 {
            return total;
        }
        total += weight(b, at);
        at = next(b, at);
    }
    total
}
