// Get state and set state. The whole buffer is judged before a byte of the store or of the buffer changes. `hand_over` is what both do
// with bit 1, `single` gets one element; what they mean is defined here.
#![tactic(auto)]

mod hand_over;
mod single;

ghost use Rattle.std.specs.Prelude.{◌≡◌, cond, [], ◌+◌, ◌≤◌, length};
ghost use Rattle.answer.specs.Answer.{answer_of};
ghost use Rattle.store.specs.Layout.{layout_of};
ghost use Rattle.admission.specs.Refusals.{Outcome};
ghost use Rattle.admission.specs.Target.{target_of, Held};
ghost use Rattle.state.specs.State.{context_of, supported_bits, set_elements, set_state, get_elements, get_state};
ghost use Rattle.state.specs.Private.{buffer_good, set_at, get_at, bytes_for};

use admission::{BIT_0, BIT_1, is_wide, target_of};
use answer::{Answer, Fault};
use elements::offer_of;
use gsb::{bad_length, first_bad};
pub use hand_over::{give_vcpu, take_vcpu};
use octets::get32;
use rules::{Context, Usage};
pub use single::get_element;
use store::{capabilities_of, guest_at, layout_of};
use transfer::{apply, fill};

// What judging a buffer of a call on a live guest depends on. 0x0003, the PVR, stands first in a guest's values.
pub fn context_of(store: &[u8], guest: usize, usage: Usage) -> Context
    requires { (length store.now ≡ (layout_of store.now).size) × (1 ≤ guest) × (guest ≤ (layout_of store.now).guests) }
    ensures { result ≡ context_of (layout_of store.now) store.now guest usage }
{
    let l = layout_of(store);
    let pvr = get32(store, guest_at(l, guest));
    Context {
        usage,
        capabilities: capabilities_of(store, l),
        offer: offer_of(pvr),
    }
}

// 5, then the elements.
fn judge_buffer(k: Context, buffer: &[u8]) -> Result<(), Fault>
    ensures { result ≡ buffer_good k buffer.now }
{
    if bad_length(buffer) {
        return Err(Fault::Length);
    }
    first_bad(buffer, k)?;
    Ok(())
}

// Bit 1 is supported without bit 0 only.
fn supported_bits(wide: bool) -> u64
    ensures { result ≡ supported_bits wide }
{
    if wide { BIT_0 } else { BIT_1 }
}

// The use of a buffer: its elements are the guest's, or a vCPU's.
fn use_for(wide: bool, of_guest: Usage, of_vcpu: Usage) -> Usage
    ensures { result ≡ cond wide of_guest of_vcpu }
{
    if wide { of_guest } else { of_vcpu }
}

// Where the elements' values are, with one argument less than `target_of`: none goes over the stack, which the entries have 512 bytes of.
fn element_target(
    store: &[u8],
    flags: u64,
    wide: bool,
    guest: u64,
    vcpu: u64,
) -> Result<usize, Fault>
    ensures value { result ≡ target_of (layout_of store.now) store.now (supported_bits wide) flags wide guest vcpu }
    ensures held { Held result wide (layout_of store.now) (length store.now) }
{
    target_of(
        store,
        supported_bits(wide),
        flags,
        wide,
        guest as usize,
        vcpu as usize,
    )
}

fn set_at(store: &mut [u8], base: usize, k: Context, buffer: &[u8]) -> Result<u64, Fault>
    requires { base + bytes_for k.usage ≤ length store.old }
    ensures { ◌≡◌ {A = Outcome} (record { answer = answer_of result; store = store.new; buffer = [] }) (set_at store.old base k buffer.now) }
{
    judge_buffer(k, buffer)?;
    apply(store, base, buffer);
    Ok(0)
}

fn try_set(store: &mut [u8], flags: u64, guest: u64, vcpu: u64, buffer: &[u8]) -> Result<u64, Fault>
    ensures { ◌≡◌ {A = Outcome} (record { answer = answer_of result; store = store.new; buffer = [] }) (set_elements (layout_of store.old) store.old flags guest vcpu buffer.now) }
{
    let wide = is_wide(flags);
    let base = element_target(store, flags, wide, guest, vcpu)?;
    let usage = use_for(wide, Usage::GuestSet, Usage::ThreadSet);
    let k = context_of(store, guest as usize, usage);
    set_at(store, base, k, buffer)
}

pub fn set_elements(store: &mut [u8], flags: u64, guest: u64, vcpu: u64, buffer: &[u8]) -> Answer
    ensures { ◌≡◌ {A = Outcome} (record { answer = result; store = store.new; buffer = [] }) (set_elements (layout_of store.old) store.old flags guest vcpu buffer.now) }
{
    Answer::from(try_set(store, flags, guest, vcpu, buffer))
}

// H_GUEST_SET_STATE.
pub fn set_state(store: &mut [u8], flags: u64, guest: u64, vcpu: u64, buffer: &[u8]) -> Answer
    ensures { ◌≡◌ {A = Outcome} (record { answer = result; store = store.new; buffer = [] }) (set_state (layout_of store.old) store.old flags guest vcpu buffer.now) }
{
    if flags == BIT_1 {
        return give_vcpu(store, guest, vcpu, buffer);
    }
    set_elements(store, flags, guest, vcpu, buffer)
}

fn get_at(store: &[u8], base: usize, k: Context, buffer: &mut [u8]) -> Result<u64, Fault>
    requires { base + bytes_for k.usage ≤ length store.now }
    ensures { ◌≡◌ {A = Outcome} (record { answer = answer_of result; store = store.now; buffer = buffer.new }) (get_at store.now base k buffer.old) }
{
    judge_buffer(k, buffer)?;
    fill(store, base, buffer);
    Ok(0)
}

fn try_get(store: &[u8], flags: u64, guest: u64, vcpu: u64, buffer: &mut [u8]) -> Result<u64, Fault>
    ensures { ◌≡◌ {A = Outcome} (record { answer = answer_of result; store = store.now; buffer = buffer.new }) (get_elements (layout_of store.now) store.now flags guest vcpu buffer.old) }
{
    let wide = is_wide(flags);
    let base = element_target(store, flags, wide, guest, vcpu)?;
    let usage = use_for(wide, Usage::GuestGet, Usage::ThreadGet);
    let k = context_of(store, guest as usize, usage);
    get_at(store, base, k, buffer)
}

pub fn get_elements(store: &[u8], flags: u64, guest: u64, vcpu: u64, buffer: &mut [u8]) -> Answer
    ensures { ◌≡◌ {A = Outcome} (record { answer = result; store = store.now; buffer = buffer.new }) (get_elements (layout_of store.now) store.now flags guest vcpu buffer.old) }
{
    Answer::from(try_get(store, flags, guest, vcpu, buffer))
}

// H_GUEST_GET_STATE. It writes the store where a vCPU is taken.
pub fn get_state(store: &mut [u8], flags: u64, guest: u64, vcpu: u64, buffer: &mut [u8]) -> Answer
    ensures { ◌≡◌ {A = Outcome} (record { answer = result; store = store.new; buffer = buffer.new }) (get_state (layout_of store.old) store.old flags guest vcpu buffer.old) }
{
    if flags == BIT_1 {
        return take_vcpu(store, guest, vcpu, buffer);
    }
    get_elements(store, flags, guest, vcpu, buffer)
}
