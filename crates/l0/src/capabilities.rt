// A fresh store, and the capabilities that the L1 and this L0 agree on.
ghost use Rattle.std.specs.Prelude.{◌≡◌, [], length};
ghost use Rattle.answer.specs.Answer.{answer_of};
ghost use Rattle.store.specs.Layout.{layout_of};
ghost use Rattle.admission.specs.Refusals.{Outcome};
ghost use Rattle.l0.specs.Calls.{fresh_store, get_capabilities, set_capabilities, in_use};

use admission::{admit, other_bits};
use answer::{Answer, Fault, refusal, success};
use octets::clear;
use store::{Layout, any_live, capabilities_of, layout_of, put_capabilities};

// Bits 1 and 2: POWER9, POWER10.
const OFFERED: u64 = 0x6000_0000_0000_0000;

pub fn fresh_store(store: &mut [u8]) -> Answer
    ensures { ◌≡◌ {A = Outcome} (record { answer = result; store = store.new; buffer = [] }) (fresh_store (layout_of store.old) store.old) }
{
    let l = layout_of(store);
    if store.len() != l.size {
        return refusal(Fault::Store);
    }
    clear(store, 0, store.len());
    success(0)
}

// H_GUEST_GET_CAPABILITIES.
pub fn get_capabilities(store: &[u8], flags: u64) -> Answer
    ensures { ◌≡◌ {A = Outcome} (record { answer = result; store = store.now; buffer = [] }) (get_capabilities (layout_of store.now) store.now flags) }
{
    let l = layout_of(store);
    match admit(store, l, 0, flags) {
        Ok(()) => success(OFFERED),
        Err(fault) => refusal(fault),
    }
}

// A guest lives under what is agreed, and something else is asked for.
fn in_use(store: &[u8], l: Layout, bitmap: u64) -> bool
    requires { length store.now ≡ l.size }
    ensures { result ≡ in_use l store.now bitmap }
{
    bitmap != capabilities_of(store, l) && any_live(store, l)
}

fn try_set_capabilities(store: &mut [u8], flags: u64, bitmap: u64) -> Result<u64, Fault>
    ensures { ◌≡◌ {A = Outcome} (record { answer = answer_of result; store = store.new; buffer = [] }) (set_capabilities (layout_of store.old) store.old flags bitmap) }
{
    let l = layout_of(store);
    admit(store, l, 0, flags)?;
    if other_bits(OFFERED, bitmap) != 0 {
        return Err(Fault::Capability);
    }
    if in_use(store, l, bitmap) {
        return Err(Fault::InUse);
    }
    put_capabilities(store, l, bitmap);
    Ok(0)
}

// H_GUEST_SET_CAPABILITIES.
pub fn set_capabilities(store: &mut [u8], flags: u64, bitmap: u64) -> Answer
    ensures { ◌≡◌ {A = Outcome} (record { answer = result; store = store.new; buffer = [] }) (set_capabilities (layout_of store.old) store.old flags bitmap) }
{
    Answer::from(try_set_capabilities(store, flags, bitmap))
}
