// A parked vCPU handed over: get state with bit 1 takes its state, set state with bit 1 gives it back.
ghost use Rattle.std.specs.Prelude.{◌≡◌, [], ◌<◌, length};
ghost use Rattle.answer.specs.Answer.{answer_of};
ghost use Rattle.store.specs.Layout.{layout_of};
ghost use Rattle.admission.specs.Refusals.{Outcome};
ghost use Rattle.state.specs.HandOver.{out_of_range, take_vcpu, give_vcpu};
ghost use Rattle.state.specs.Private.{take_at, give_at};

use admission::vcpu_slot;
use answer::{Answer, Fault};
use handover::{give, take};
use store::{Layout, is_taken, layout_of, set_taken, slot_at};

// A form takes 24 bytes at least, and 1,844 at most.
const SHORTEST: usize = 24;

const LONGEST: usize = 1844;

fn out_of_range(least: usize, b: &[u8]) -> bool
    ensures { result ≡ out_of_range least b.now }
{
    b.len() < least || 65536 < b.len()
}

// 16 and 5; then the form is written, the values are zeroed and the slot is marked.
fn take_at(
    store: &mut [u8],
    l: Layout,
    slot: usize,
    vcpu: u64,
    buffer: &mut [u8],
) -> Result<u64, Fault>
    requires { (length store.old ≡ l.size) × (slot < l.slots) × (vcpu < 2048) }
    ensures { ◌≡◌ {A = Outcome} (record { answer = answer_of result; store = store.new; buffer = buffer.new }) (take_at l store.old slot vcpu buffer.old) }
{
    if is_taken(store, l, slot) {
        return Err(Fault::Taken);
    }
    if out_of_range(LONGEST, buffer) {
        return Err(Fault::Length);
    }
    take(store, slot_at(l, slot), vcpu, buffer);
    set_taken(store, l, slot, true);
    Ok(0)
}

fn try_take(store: &mut [u8], guest: u64, vcpu: u64, buffer: &mut [u8]) -> Result<u64, Fault>
    ensures { ◌≡◌ {A = Outcome} (record { answer = answer_of result; store = store.new; buffer = buffer.new }) (take_vcpu (layout_of store.old) store.old guest vcpu buffer.old) }
{
    let slot = vcpu_slot(store, guest as usize, vcpu as usize)?;
    let l = layout_of(store);
    take_at(store, l, slot, vcpu, buffer)
}

pub fn take_vcpu(store: &mut [u8], guest: u64, vcpu: u64, buffer: &mut [u8]) -> Answer
    ensures { ◌≡◌ {A = Outcome} (record { answer = result; store = store.new; buffer = buffer.new }) (take_vcpu (layout_of store.old) store.old guest vcpu buffer.old) }
{
    Answer::from(try_take(store, guest, vcpu, buffer))
}

// 16, 5 and 17; then the values are stored and the mark is cleared.
fn give_at(store: &mut [u8], l: Layout, slot: usize, vcpu: u64, buffer: &[u8]) -> Result<u64, Fault>
    requires { (length store.old ≡ l.size) × (slot < l.slots) × (vcpu < 2048) }
    ensures { ◌≡◌ {A = Outcome} (record { answer = answer_of result; store = store.new; buffer = [] }) (give_at l store.old slot vcpu buffer.now) }
{
    if !is_taken(store, l, slot) {
        return Err(Fault::Taken);
    }
    if out_of_range(SHORTEST, buffer) {
        return Err(Fault::Length);
    }
    if !give(store, slot_at(l, slot), vcpu, buffer) {
        return Err(Fault::Form);
    }
    set_taken(store, l, slot, false);
    Ok(0)
}

fn try_give(store: &mut [u8], guest: u64, vcpu: u64, buffer: &[u8]) -> Result<u64, Fault>
    ensures { ◌≡◌ {A = Outcome} (record { answer = answer_of result; store = store.new; buffer = [] }) (give_vcpu (layout_of store.old) store.old guest vcpu buffer.now) }
{
    let slot = vcpu_slot(store, guest as usize, vcpu as usize)?;
    let l = layout_of(store);
    give_at(store, l, slot, vcpu, buffer)
}

pub fn give_vcpu(store: &mut [u8], guest: u64, vcpu: u64, buffer: &[u8]) -> Answer
    ensures { ◌≡◌ {A = Outcome} (record { answer = result; store = store.new; buffer = [] }) (give_vcpu (layout_of store.old) store.old guest vcpu buffer.now) }
{
    Answer::from(try_give(store, guest, vcpu, buffer))
}
