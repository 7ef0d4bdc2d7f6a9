// vCPUs created. Apart from `guests`, which defines it, since its tests are the most.
ghost use Rattle.std.specs.Prelude.{◌≡◌, []};
ghost use Rattle.answer.specs.Answer.{answer_of};
ghost use Rattle.store.specs.Layout.{layout_of};
ghost use Rattle.admission.specs.Refusals.{Outcome};
ghost use Rattle.guests.specs.Guests.{create_vcpu};

use admission::admit;
use answer::{Answer, Fault};
use store::{Layout, free_slot, is_live, layout_of, slot_of, with_vcpu};

// The call in the layout l, which the store's length tells.
fn create_vcpu_with(
    store: &mut [u8],
    l: Layout,
    flags: u64,
    guest: u64,
    vcpu: u64,
) -> Result<u64, Fault>
    requires { l ≡ layout_of store.old }
    ensures { ◌≡◌ {A = Outcome} (record { answer = answer_of result; store = store.new; buffer = [] }) (create_vcpu l store.old flags guest vcpu) }
{
    admit(store, l, 0, flags)?;
    if !is_live(store, l, guest as usize) {
        return Err(Fault::Guest);
    }
    if 2048 <= vcpu {
        return Err(Fault::Vcpu);
    }
    if slot_of(store, l, guest as usize, vcpu as usize).is_some() {
        return Err(Fault::Exists);
    }
    let Some(slot) = free_slot(store, l) else {
        return Err(Fault::Room);
    };
    with_vcpu(store, l, slot, guest as usize, vcpu as usize);
    Ok(0)
}

// H_GUEST_CREATE_VCPU.
pub fn create_vcpu(store: &mut [u8], flags: u64, guest: u64, vcpu: u64) -> Answer
    ensures { ◌≡◌ {A = Outcome} (record { answer = result; store = store.new; buffer = [] }) (create_vcpu (layout_of store.old) store.old flags guest vcpu) }
{
    let l = layout_of(store);
    Answer::from(create_vcpu_with(store, l, flags, guest, vcpu))
}
