// A buffer judged: whether it begins with a form of a vCPU.
ghost use Rattle.std.specs.Prelude.{◌≡◌, ◌-◌, ◌≤◌, ◌<◌, length};
ghost use Rattle.handover.specs.Form.{presence, is_shown, begins};
ghost use Rattle.handover.specs.Private.{IsPart, walked};

use super::head::{is_open, presence_first, presence_second, presence_third};
use super::parts::{A, B, C, D, E, F, G, H, I, Part};
use super::zeros::is_zero;

// The present values of a part stand one behind the other, so only their number is asked. Returns where the next value is, if these are
// sound.
#[inline(always)]
fn judge_part(b: &[u8], part: Part, m: u64, at: usize) -> Option<usize>
    requires { IsPart part.from part.to part.size part.first × (m ≡ presence (is_shown b.now) part.from (part.to - part.from)) × (at ≤ length b.now) }
    ensures { result ≡ walked b.now part.from (part.to - part.from) at }
{
    let Part {
        from,
        size,
        first,
        ..
    } = part;
    let shown = u64::count_ones(m) as usize;
    let long = part.place_of(from + shown) - first;
    if b.len() - at < long {
        return None;
    }
    let mut here = at;
    for _i in 0..shown {
        if is_zero(b, here, size) {
            return None;
        }
        here += size;
    }
    Some(here)
}

fn judge_first(b: &[u8], m: u64) -> Option<usize>
    requires { (24 ≤ length b.now) × (m ≡ presence (is_shown b.now) 0 48) }
    ensures { result ≡ walked b.now 0 48 24 }
{
    let x = m / 0x4000_0000_0000;
    let y = m % 0x4000_0000_0000;
    let at = judge_part(b, A, x, 24)?;
    judge_part(b, B, y, at)
}

fn judge_second(b: &[u8], m: u64, at: usize) -> Option<usize>
    requires { (m ≡ presence (is_shown b.now) 48 64) × (at ≤ length b.now) }
    ensures { result ≡ walked b.now 48 64 at }
{
    let x = m / 0x200_0000;
    let y = m / 0x400 % 0x8000;
    let z = m % 0x400;
    let at = judge_part(b, C, x, at)?;
    let at = judge_part(b, D, y, at)?;
    judge_part(b, E, z, at)
}

// The elements behind the vectors.
fn judge_last(b: &[u8], m: u64, at: usize) -> Option<usize>
    requires { (m ≡ presence (is_shown b.now) 166 4) × (at ≤ length b.now) }
    ensures { result ≡ walked b.now 166 4 at }
{
    let x = m / 8;
    let y = m / 2 % 4;
    let z = m % 2;
    let at = judge_part(b, G, x, at)?;
    let at = judge_part(b, H, y, at)?;
    judge_part(b, I, z, at)
}

fn judge_third(b: &[u8], m: u64, at: usize) -> Option<usize>
    requires { (m ≡ presence (is_shown b.now) 112 58) × (at ≤ length b.now) }
    ensures { result ≡ walked b.now 112 58 at }
{
    let x = m / 16;
    let y = m % 16;
    let at = judge_part(b, F, x, at)?;
    judge_last(b, y, at)
}

fn judge_values(b: &[u8]) -> Option<usize>
    requires { 24 ≤ length b.now }
    ensures { result ≡ walked b.now 0 170 24 }
{
    let at = judge_first(b, presence_first(b))?;
    let at = judge_second(b, presence_second(b), at)?;
    judge_third(b, presence_third(b), at)
}

pub fn judge(b: &[u8], vcpu: u64) -> bool
    requires { (vcpu < 2048) × (24 ≤ length b.now) }
    ensures { result ≡ begins vcpu b.now }
{
    is_open(b, vcpu) && judge_values(b).is_some()
}
