// The clock that a guest sees: the L1's timebase and the guest's TB offset.
ghost use Rattle.std.specs.Prelude.{◌≡◌, []};
ghost use Rattle.answer.specs.Answer.{answer_of};
ghost use Rattle.store.specs.Layout.{layout_of};
ghost use Rattle.admission.specs.Refusals.{Outcome};
ghost use Rattle.l0.specs.Calls.{rounded_up, guest_clock};

use answer::{Answer, Fault};
use octets::get64;
use store::{Layout, guest_at, is_live, layout_of, well_formed};

// Where 0x0004 stands in a guest's values.
const TB_OFFSET: usize = 4;

// The processor lets a hypervisor set only the upper 40 bits of the timebase, so that an offset acts as the next multiple of 2^24.
fn rounded_up(offset: u64) -> u64
    ensures { result ≡ rounded_up offset }
{
    let x = std::num::wrapping_add_u64(offset, 0xFF_FFFF);
    x - x % 0x100_0000
}

fn try_guest_clock(store: &[u8], guest: u64, timebase: u64) -> Result<u64, Fault>
    ensures { ◌≡◌ {A = Outcome} (record { answer = answer_of result; store = store.now; buffer = [] }) (guest_clock (layout_of store.now) store.now guest timebase) }
{
    let l = layout_of(store);
    if !well_formed(store, l) {
        return Err(Fault::Store);
    }
    let g = guest as usize;
    if !is_live(store, l, g) {
        return Err(Fault::Guest);
    }
    let offset = get64(store, guest_at(l, g) + TB_OFFSET);
    Ok(std::num::wrapping_add_u64(timebase, rounded_up(offset)))
}

pub fn guest_clock(store: &[u8], guest: u64, timebase: u64) -> Answer
    ensures { ◌≡◌ {A = Outcome} (record { answer = result; store = store.now; buffer = [] }) (guest_clock (layout_of store.now) store.now guest timebase) }
{
    Answer::from(try_guest_clock(store, guest, timebase))
}
