// The length of a buffer, and one element judged.
ghost use Rattle.std.specs.Prelude.{◌≡◌, ◌+◌, ◌≤◌, ◌<◌, length};
ghost use Rattle.gsb.specs.Walk.{bad_length, judged};

use answer::Bad;
use elements::kind_of;
use octets::{get16, get32};
use rules::{Context, good_value, permitted, right_size};

pub fn bad_length(b: &[u8]) -> bool
    ensures { result ≡ bad_length b.now }
{
    if b.len() < 4 {
        return true;
    }
    65536 < b.len()
}

// An empty NOP is told by one read: long runs of them are common padding.
pub fn judge(b: &[u8], at: usize, k: Context) -> Result<usize, Bad>
    requires { at ≤ length b.now }
    ensures { result ≡ judged k b.now at }
{
    if b.len() - at < 4 {
        return Err(Bad::Size);
    }
    if get32(b, at) == 0 {
        return Ok(at + 4);
    }
    let id = get16(b, at);
    let size = get16(b, at + 2) as usize;
    let kind = kind_of(id);
    if !permitted(k, id, kind) {
        return Err(Bad::Id);
    }
    if !right_size(kind, size) {
        return Err(Bad::Size);
    }
    if b.len() - at - 4 < size {
        return Err(Bad::Size);
    }
    if !good_value(k, id, size, b, at + 4) {
        return Err(Bad::Value);
    }
    Ok(at + 4 + size)
}
