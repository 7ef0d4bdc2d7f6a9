// A state taken: its form written, then its values zeroed. The values go first, since their bits tell the head.
ghost use Rattle.std.specs.Prelude.{◌≡◌, ◌+◌, ◌-◌, ◌*◌, ◌^◌, ◌≤◌, ◌<◌, length};
ghost use Rattle.octets.specs.Bytes.{bytes_at, put};
ghost use Rattle.handover.specs.Form.{state_bytes, kept, state_at, taken};
ghost use Rattle.handover.specs.Private.{place, IsPart, onward, Room, Wrote, WroteAll};

use super::head::put_head;
use super::parts::{A, B, C, D, E, F, G, H, I, Part};
use super::zeros::is_zero;
use super::{Run, Words};
use octets::{clear, copy};

fn take_one(store: &[u8], from: usize, n: usize, buffer: &mut [u8], run: Run) -> Run
    requires { (from + n ≤ length store.now) × (run.at + n ≤ length buffer.old) × (run.word < 2 ^ 63) }
    ensures { (result ≡ onward run (bytes_at store.now from n)) × (buffer.new ≡ put buffer.old run.at (kept (bytes_at store.now from n))) }
{
    if is_zero(store, from, n) {
        let word = run.word * 2;
        return Run { at: run.at, word };
    }
    copy(store, from, buffer, run.at, n);
    Run {
        at: run.at + n,
        word: run.word * 2 + 1,
    }
}

// One loop for all sizes: it stands in line at each call, where the size is known.
#[inline(always)]
fn take_part(store: &[u8], base: usize, part: Part, buffer: &mut [u8], run: Run) -> Run
    requires { IsPart part.from part.to part.size part.first × (base + state_bytes ≤ length store.now) × Room part.from part.to run (length buffer.old) }
    ensures { Wrote (state_at store.now base) part.from (part.to - part.from) run result buffer.old buffer.new }
{
    let Part {
        from,
        to,
        size,
        first,
    } = part;
    let mut here = base + first;
    let mut so_far = run;
    for _e in from..to {
        so_far = take_one(store, here, size, buffer, so_far);
        here += size;
    }
    so_far
}

fn take_first(store: &[u8], base: usize, vcpu: u64, buffer: &mut [u8]) -> Run
    requires { (base + state_bytes ≤ length store.now) × (vcpu < 2048) × (1844 ≤ length buffer.old) }
    ensures { Wrote (state_at store.now base) 0 48 (record { at = 24; word = 4096 + 2 * vcpu }) result buffer.old buffer.new }
{
    let run = Run {
        at: 24,
        word: 0x1000 + 2 * vcpu,
    };
    let run = take_part(store, base, A, buffer, run);
    take_part(store, base, B, buffer, run)
}

fn take_second(store: &[u8], base: usize, buffer: &mut [u8], at: usize) -> Run
    requires { (base + state_bytes ≤ length store.now) × (at + state_bytes ≤ place 48 + length buffer.old) }
    ensures { Wrote (state_at store.now base) 48 64 (record { at = at; word = 0 }) result buffer.old buffer.new }
{
    let run = Run { at, word: 0 };
    let run = take_part(store, base, C, buffer, run);
    let run = take_part(store, base, D, buffer, run);
    take_part(store, base, E, buffer, run)
}

// The elements behind the vectors.
fn take_last(store: &[u8], base: usize, buffer: &mut [u8], run: Run) -> Run
    requires { (base + state_bytes ≤ length store.now) × Room 166 170 run (length buffer.old) }
    ensures { Wrote (state_at store.now base) 166 4 run result buffer.old buffer.new }
{
    let run = take_part(store, base, G, buffer, run);
    let run = take_part(store, base, H, buffer, run);
    take_part(store, base, I, buffer, run)
}

fn take_third(store: &[u8], base: usize, buffer: &mut [u8], at: usize) -> Run
    requires { (base + state_bytes ≤ length store.now) × (at + state_bytes ≤ place 112 + length buffer.old) }
    ensures { Wrote (state_at store.now base) 112 58 (record { at = at; word = 0 }) result buffer.old buffer.new }
{
    let run = Run { at, word: 0 };
    let run = take_part(store, base, F, buffer, run);
    take_last(store, base, buffer, run)
}

// The values that are not all zero, and the head that tells them.
fn take_values(store: &[u8], base: usize, vcpu: u64, buffer: &mut [u8]) -> Words
    requires { (base + state_bytes ≤ length store.now) × (vcpu < 2048) × (1844 ≤ length buffer.old) }
    ensures { WroteAll vcpu (state_at store.now base) result buffer.old buffer.new }
{
    let first = take_first(store, base, vcpu, buffer);
    let second = take_second(store, base, buffer, first.at);
    let third = take_third(store, base, buffer, second.at);
    Words {
        first: first.word,
        second: second.word,
        third: third.word * 64,
    }
}

// The form stands in the buffer's first bytes, and the state is zero.
pub fn take(store: &mut [u8], base: usize, vcpu: u64, buffer: &mut [u8])
    requires { (base + state_bytes ≤ length store.old) × (vcpu < 2048) × (1844 ≤ length buffer.old) }
    ensures { record { store = store.exit.now; buffer = buffer.new } ≡ taken vcpu base store.entry.now buffer.old }
{
    let words = take_values(store, base, vcpu, buffer);
    put_head(buffer, words);
    clear(store, base, 1820);
}
