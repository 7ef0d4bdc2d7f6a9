// The tests that the calls begin with, before a buffer is looked at: the store, the flags, the guest and the vCPU.
// Apart from the calls, since all of them share it.
#![tactic(auto)]

ghost use Rattle.std.specs.Prelude.{◌≡◌, ◌<◌, length};
ghost use Rattle.store.specs.Layout.{layout_of};
ghost use Rattle.store.specs.Header.{outside};
ghost use Rattle.admission.specs.Refusals.{admission, has_bit0};
ghost use Rattle.admission.specs.Target.{target_of, Held, vcpu_slot, Within};

use answer::Fault;
use store::{Layout, guest_at, is_live, is_taken, layout_of, slot_at, slot_of, well_formed};

// Flag bit 0, of 64 the most significant: the call is guest-wide.
pub const BIT_0: u64 = 0x8000_0000_0000_0000;

// Flag bit 1: a vCPU is handed over.
pub const BIT_1: u64 = 0x4000_0000_0000_0000;

pub fn is_wide(flags: u64) -> bool
    ensures { result ≡ has_bit0 flags }
{
    flags / BIT_0 == 1
}

// The bits of x that are not among the supported ones.
pub fn other_bits(supported: u64, x: u64) -> u64
    ensures { result ≡ outside supported x }
{
    x & !supported
}

// 1 and 2, with which every call with flags begins.
pub fn admit(store: &[u8], l: Layout, supported: u64, flags: u64) -> Result<(), Fault>
    requires { l ≡ layout_of store.now }
    ensures { result ≡ admission l store.now supported flags }
{
    if !well_formed(store, l) {
        return Err(Fault::Store);
    }
    let bad = other_bits(supported, flags);
    if bad != 0 {
        return Err(Fault::Flag(u64::from(bad.leading_zeros())));
    }
    Ok(())
}

// The tests 1 to 4 and 16, and where the values of the guest or the vCPU start.
pub fn target_of(
    store: &[u8],
    supported: u64,
    flags: u64,
    wide: bool,
    guest: usize,
    vcpu: usize,
) -> Result<usize, Fault>
    ensures value { result ≡ target_of (layout_of store.now) store.now supported flags wide guest vcpu }
    ensures held { Held result wide (layout_of store.now) (length store.now) }
{
    let l = layout_of(store);
    admit(store, l, supported, flags)?;
    if !is_live(store, l, guest) {
        return Err(Fault::Guest);
    }
    if wide {
        return Ok(guest_at(l, guest));
    }
    let Some(slot) = slot_of(store, l, guest, vcpu) else {
        return Err(Fault::Vcpu);
    };
    if is_taken(store, l, slot) {
        return Err(Fault::Taken);
    }
    Ok(slot_at(l, slot))
}

// The tests 1, 3 and 4, for the calls that hand a vCPU over.
pub fn vcpu_slot(store: &[u8], guest: usize, vcpu: usize) -> Result<usize, Fault>
    ensures value { result ≡ vcpu_slot (layout_of store.now) store.now guest vcpu }
    ensures within { Within result (layout_of store.now) (length store.now) vcpu }
{
    let l = layout_of(store);
    if !well_formed(store, l) {
        return Err(Fault::Store);
    }
    if !is_live(store, l, guest) {
        return Err(Fault::Guest);
    }
    let Some(slot) = slot_of(store, l, guest, vcpu) else {
        return Err(Fault::Vcpu);
    };
    Ok(slot)
}
