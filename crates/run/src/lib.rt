// The tests of a run, before a byte of the store or of the output changes. `entry` runs; what both mean is defined here.
#![tactic(auto)]

mod entry;

ghost use Rattle.std.specs.Prelude.{◌≡◌, ◌+◌, ◌≤◌, length};
ghost use Rattle.store.specs.Layout.{layout_of, slot_bytes};
ghost use Rattle.run.specs.Private.{lent_good, input_good, exit_good, content_good, run_target_of, judged_run};

use admission::target_of;
use answer::{Fault, Place, RunBuffer};
pub use entry::run_vcpu;
use exits::is_known;
use gsb::{bad_length, first_bad};
use octets::{first_bytes, get64};
use rules::{Context, Usage, good_input, good_output};
use state::context_of;

// What a run works on: where the vCPU's values start, and how many bytes of the lent input count.
#[derive(Clone, Copy)]
pub struct RunTarget {
    pub base: usize,
    pub size: usize,
}

// Bits 0 to 2; they change nothing.
const SUPPORTED: u64 = 0xE000_0000_0000_0000;

// 0x0C00 and 0x0C01 stand first in a slot's values; their sizes are their second eight bytes.
const INPUT_SIZE: usize = 8;

const OUTPUT_SIZE: usize = 24;

// 11 and 12. `need` is how much input the caller writes, which a run by itself does not.
fn judge_lent(
    store: &[u8],
    base: usize,
    need: usize,
    input_len: usize,
    output_len: usize,
) -> Result<(), Fault>
    requires { base + slot_bytes ≤ length store.now }
    ensures { result ≡ lent_good store.now base need input_len output_len }
{
    let input = get64(store, base + INPUT_SIZE);
    let output = get64(store, base + OUTPUT_SIZE);
    if !good_input(input) {
        return Err(Fault::Unregistered(RunBuffer::Input));
    }
    if !good_output(output) {
        return Err(Fault::Unregistered(RunBuffer::Output));
    }
    if input_len < input as usize {
        return Err(Fault::Short(RunBuffer::Input));
    }
    if (input as usize) < need {
        return Err(Fault::Short(RunBuffer::Input));
    }
    if output_len < output as usize {
        return Err(Fault::Short(RunBuffer::Output));
    }
    Ok(())
}

// The tests 1 to 12 and 16. The L1 cache makes them too, before it writes an input.
pub fn run_target_of(
    store: &[u8],
    flags: u64,
    guest: usize,
    vcpu: usize,
    need: usize,
    input_len: usize,
    output_len: usize,
) -> Result<RunTarget, Fault>
    ensures { result ≡ run_target_of (layout_of store.now) store.now flags guest vcpu need input_len output_len }
{
    let base = target_of(store, SUPPORTED, flags, false, guest, vcpu)?;
    judge_lent(store, base, need, input_len, output_len)?;
    let size = get64(store, base + INPUT_SIZE) as usize;
    Ok(RunTarget { base, size })
}

// 13 and 14; k is the context of an effect.
pub fn judge_exit(k: Context, effect: &[u8], exit: u64) -> Result<(), Fault>
    ensures { result ≡ exit_good k effect.now exit }
{
    if !is_known(exit) {
        return Err(Fault::Exit);
    }
    if bad_length(effect) {
        return Err(Fault::Effect(Place {
            index: 0,
            offset: 0,
        }));
    }
    match first_bad(effect, k) {
        Err(stop) => Err(Fault::Effect(stop.place)),
        Ok(()) => Ok(()),
    }
}

// The input's elements; k is the context of a run's input. Apart from the effect, so that the two take the same stack.
fn judge_input(k: Context, input: &[u8]) -> Result<(), Fault>
    requires { 4 ≤ length input.now }
    ensures { result ≡ input_good k input.now }
{
    first_bad(input, k)?;
    Ok(())
}

// The input's elements, then 13 and 14.
fn judge_content(
    store: &[u8],
    guest: usize,
    input: &[u8],
    effect: &[u8],
    exit: u64,
) -> Result<(), Fault>
    requires { (length store.now ≡ (layout_of store.now).size) × (1 ≤ guest) × (guest ≤ (layout_of store.now).guests) × (4 ≤ length input.now) }
    ensures { result ≡ content_good (layout_of store.now) store.now guest input.now effect.now exit }
{
    judge_input(context_of(store, guest, Usage::RunInput), input)?;
    judge_exit(context_of(store, guest, Usage::Effect), effect, exit)
}

// All the tests of a run.
pub fn judge_run(
    store: &[u8],
    flags: u64,
    guest: usize,
    vcpu: usize,
    input: &[u8],
    output_len: usize,
    effect: &[u8],
    exit: u64,
) -> Result<RunTarget, Fault>
    ensures { result ≡ judged_run (layout_of store.now) store.now flags guest vcpu input.now output_len effect.now exit }
{
    let target = run_target_of(store, flags, guest, vcpu, 0, input.len(), output_len)?;
    judge_content(store, guest, first_bytes(input, target.size), effect, exit)?;
    Ok(target)
}
