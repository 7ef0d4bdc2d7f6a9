// A state given back: the values of a form stored, those that are absent zero.
ghost use Rattle.std.specs.Prelude.{◌≡◌, true, ◌+◌, ◌-◌, ◌^◌, ◌≤◌, ◌<◌, eqb, length};
ghost use Rattle.handover.specs.Form.{state_bytes, presence, is_shown, holds, given_back};
ghost use Rattle.handover.specs.Private.{place, IsPart, Blank, Gave};

use super::head::{presence_first, presence_second, presence_third};
use super::judging::judge;
use super::parts::{A, B, C, D, E, F, G, H, I, Part};
use octets::{clear, copy};

// The top digit of a number, and the number without it.
fn top_digit(x: u64) -> usize
    requires { 0 < x }
    ensures { (result < 64) × (2 ^ result ≤ x) × (x < 2 ^ (result + 1)) }
{
    63 - u64::leading_zeros(x) as usize
}

fn without(x: u64, digit: usize) -> u64
    requires { (digit < 64) × (2 ^ digit ≤ x) }
    ensures { result ≡ x - 2 ^ digit }
{
    x - (1u64 << digit)
}

fn is_full(m: u64, n: usize) -> bool
    requires { (0 < n) × (n ≤ 64) }
    ensures { result ≡ eqb m (2 ^ n - 1) }
{
    m == 0xFFFF_FFFF_FFFF_FFFF >> (64 - n)
}

// From one present value to the next, by the leading zeros of the bits that are left; what lies between is zero already.
#[inline(always)]
fn give_shown(store: &mut [u8], base: usize, b: &[u8], part: Part, m: u64, at: usize) -> usize
    requires { IsPart part.from part.to part.size part.first × (base + state_bytes ≤ length store.old) × (m ≡ presence (is_shown b.now) part.from (part.to - part.from)) × (at ≤ length b.now) × (holds b.now part.from (part.to - part.from) at ≡ true) × Blank store.old base part.from part.to }
    ensures { Gave b.now base part.from (part.to - part.from) at result store.old store.new }
{
    let Part { from, to, size, .. } = part;
    let mut left = m;
    let mut e = from;
    let mut here = at;
    while left != 0 {
        let digit = top_digit(left);
        left = without(left, digit);
        e = to - digit;
        let place = part.place_of(e - 1);
        copy(b, here, store, base + place, size);
        here += size;
    }
    here
}

// If all are present, they are copied at once.
#[inline(always)]
fn give_part(store: &mut [u8], base: usize, b: &[u8], part: Part, m: u64, at: usize) -> usize
    requires { IsPart part.from part.to part.size part.first × (base + state_bytes ≤ length store.old) × (m ≡ presence (is_shown b.now) part.from (part.to - part.from)) × (at ≤ length b.now) × (holds b.now part.from (part.to - part.from) at ≡ true) }
    ensures { Gave b.now base part.from (part.to - part.from) at result store.old store.new }
{
    let Part {
        from,
        to,
        first,
        ..
    } = part;
    let long = part.place_of(to) - first;
    if is_full(m, to - from) {
        copy(b, at, store, base + first, long);
        return at + long;
    }
    clear(store, base + first, long);
    give_shown(store, base, b, part, m, at)
}

fn give_first(store: &mut [u8], base: usize, b: &[u8], m: u64) -> usize
    requires { (base + state_bytes ≤ length store.old) × (24 ≤ length b.now) × (m ≡ presence (is_shown b.now) 0 48) × (holds b.now 0 48 24 ≡ true) }
    ensures { Gave b.now base 0 48 24 result store.old store.new }
{
    let x = m / 0x4000_0000_0000;
    let y = m % 0x4000_0000_0000;
    let at = give_part(store, base, b, A, x, 24);
    give_part(store, base, b, B, y, at)
}

fn give_second(store: &mut [u8], base: usize, b: &[u8], m: u64, at: usize) -> usize
    requires { (base + state_bytes ≤ length store.old) × (at ≤ length b.now) × (m ≡ presence (is_shown b.now) 48 64) × (holds b.now 48 64 at ≡ true) }
    ensures { Gave b.now base 48 64 at result store.old store.new }
{
    let x = m / 0x200_0000;
    let y = m / 0x400 % 0x8000;
    let z = m % 0x400;
    let at = give_part(store, base, b, C, x, at);
    let at = give_part(store, base, b, D, y, at);
    give_part(store, base, b, E, z, at)
}

// The elements behind the vectors.
fn give_last(store: &mut [u8], base: usize, b: &[u8], m: u64, at: usize) -> usize
    requires { (base + state_bytes ≤ length store.old) × (at ≤ length b.now) × (m ≡ presence (is_shown b.now) 166 4) × (holds b.now 166 4 at ≡ true) }
    ensures { Gave b.now base 166 4 at result store.old store.new }
{
    let x = m / 8;
    let y = m / 2 % 4;
    let z = m % 2;
    let at = give_part(store, base, b, G, x, at);
    let at = give_part(store, base, b, H, y, at);
    give_part(store, base, b, I, z, at)
}

fn give_third(store: &mut [u8], base: usize, b: &[u8], m: u64, at: usize) -> usize
    requires { (base + state_bytes ≤ length store.old) × (at ≤ length b.now) × (m ≡ presence (is_shown b.now) 112 58) × (holds b.now 112 58 at ≡ true) }
    ensures { Gave b.now base 112 58 at result store.old store.new }
{
    let x = m / 16;
    let y = m % 16;
    let at = give_part(store, base, b, F, x, at);
    give_last(store, base, b, y, at)
}

fn give_values(store: &mut [u8], base: usize, b: &[u8]) -> usize
    requires { (base + state_bytes ≤ length store.old) × (24 ≤ length b.now) × (holds b.now 0 170 24 ≡ true) }
    ensures { Gave b.now base 0 170 24 result store.old store.new }
{
    let at = give_first(store, base, b, presence_first(b));
    let at = give_second(store, base, b, presence_second(b), at);
    give_third(store, base, b, presence_third(b), at)
}

// The whole form is judged before a value is stored.
pub fn give(store: &mut [u8], base: usize, vcpu: u64, buffer: &[u8]) -> bool
    requires { (base + state_bytes ≤ length store.old) × (vcpu < 2048) × (24 ≤ length buffer.now) }
    ensures { record { accepted = result; store = store.new } ≡ given_back vcpu base store.old buffer.now }
{
    if !judge(buffer, vcpu) {
        return false;
    }
    give_values(store, base, buffer);
    true
}
