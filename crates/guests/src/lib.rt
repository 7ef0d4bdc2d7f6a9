// Guests created and deleted. `vcpus` creates vCPUs; what the three mean is defined here.
#![tactic(auto)]

mod vcpus;

ghost use Rattle.std.specs.Prelude.{◌≡◌, []};
ghost use Rattle.answer.specs.Answer.{answer_of};
ghost use Rattle.store.specs.Layout.{layout_of};
ghost use Rattle.admission.specs.Refusals.{Outcome};
ghost use Rattle.guests.specs.Guests.{create_guest, delete_guest};

use admission::{BIT_0, admit, is_wide};
use answer::{Answer, Fault};
use store::{Layout, free_guest, is_live, layout_of, with_guest, without_guest, without_guests};
pub use vcpus::create_vcpu;

// The call in the layout l, which the store's length tells.
fn create_guest_with(store: &mut [u8], l: Layout, flags: u64, token: u64) -> Result<u64, Fault>
    requires { l ≡ layout_of store.old }
    ensures { ◌≡◌ {A = Outcome} (record { answer = answer_of result; store = store.new; buffer = [] }) (create_guest l store.old flags token) }
{
    admit(store, l, 0, flags)?;
    if token != u64::MAX {
        return Err(Fault::Token);
    }
    let Some(guest) = free_guest(store, l) else {
        return Err(Fault::Room);
    };
    with_guest(store, l, guest);
    Ok(guest as u64)
}

// H_GUEST_CREATE. Never put in line: in a call by its number it would take its stack beside that of the deepest call.
#[inline(never)]
pub fn create_guest(store: &mut [u8], flags: u64, token: u64) -> Answer
    ensures { ◌≡◌ {A = Outcome} (record { answer = result; store = store.new; buffer = [] }) (create_guest (layout_of store.old) store.old flags token) }
{
    let l = layout_of(store);
    Answer::from(create_guest_with(store, l, flags, token))
}

// The call in the layout l, which the store's length tells.
fn delete_guest_with(store: &mut [u8], l: Layout, flags: u64, guest: u64) -> Result<u64, Fault>
    requires { l ≡ layout_of store.old }
    ensures { ◌≡◌ {A = Outcome} (record { answer = answer_of result; store = store.new; buffer = [] }) (delete_guest l store.old flags guest) }
{
    admit(store, l, BIT_0, flags)?;
    if is_wide(flags) {
        without_guests(store, l);
        return Ok(0);
    }
    if !is_live(store, l, guest as usize) {
        return Err(Fault::Guest);
    }
    without_guest(store, l, guest as usize);
    Ok(0)
}

// H_GUEST_DELETE. Bit 0 deletes all guests, and the id is then ignored.
pub fn delete_guest(store: &mut [u8], flags: u64, guest: u64) -> Answer
    ensures { ◌≡◌ {A = Outcome} (record { answer = result; store = store.new; buffer = [] }) (delete_guest (layout_of store.old) store.old flags guest) }
{
    let l = layout_of(store);
    Answer::from(delete_guest_with(store, l, flags, guest))
}
