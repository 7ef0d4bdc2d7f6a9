// Which records a call touches, from the store before it: a delete clears the words by which its slots are known.
ghost use Rattle.std.specs.Prelude.{◌≡◌, cond, ◌≤◌, ◌<◌, eqb, length};
ghost use Rattle.store.specs.Layout.{layout_of};
ghost use Rattle.store.specs.Header.{guest_of};
ghost use Rattle.tally.specs.Tally.{dropped};
ghost use Rattle.tally.specs.Private.{mask_of, one, no_slot, touched_by, HeldBytes};

use super::Touched;
use admission::is_wide;
use l0::Kind;
use octets::get64;
use store::{Layout, free_slot, layout_of, slot_at, slot_of, slot_word};

// 0x0C00 stands first in a slot's values; its size is its second eight bytes.
const INPUT_SIZE: usize = 8;

fn guest_of(l: Layout, w: usize) -> u64
    ensures { result ≡ guest_of l w }
{
    let named = w / 2048;
    if named < l.ids {
        return 0;
    }
    (named - l.ids) as u64
}

// Whether a delete drops slot a.
fn drops(store: &[u8], l: Layout, flags: u64, guest: u64, a: usize) -> bool
    requires { (length store.now ≡ l.size) × (a < l.slots) }
    ensures { result ≡ dropped l store.now flags guest a }
{
    let w = slot_word(store, l, a);
    if is_wide(flags) {
        return w != 0;
    }
    guest_of(l, w) == guest
}

fn dropped_slots(store: &[u8], l: Layout, flags: u64, guest: u64) -> u64
    requires { length store.now ≡ l.size }
    ensures { result ≡ mask_of (dropped l store.now flags guest) l.slots 0 }
{
    let mut mask = 0;
    let mut a = l.slots;
    while 0 < a {
        a -= 1;
        mask = 2 * mask + u64::from(drops(store, l, flags, guest, a));
    }
    mask
}

fn one(a: usize) -> Touched
    ensures { result ≡ one a }
{
    Touched { first: a, slots: 1 }
}

// In a store of the layout's length. A call that has no slot names the record past the last. The laws of the three kinds that share an
// arm are named here, so that an arm of its own is judged by what it says (must-fail/wrong_slot.edit).
#[tactic(auto, using(crate::proofs::ByKind::touch_get, crate::proofs::ByKind::touch_set, crate::proofs::ByKind::touch_run))]
fn touched_with(store: &[u8], l: Layout, kind: u64, flags: u64, guest: u64, number: u64) -> Touched
    requires { (l ≡ layout_of store.now) × (length store.now ≡ l.size) }
    ensures { result ≡ touched_by l store.now kind flags guest number }
{
    match Kind::from_number(kind) {
        Some(Kind::CreateVcpu) => one(free_slot(store, l).unwrap_or(l.slots)),
        Some(Kind::GetState | Kind::SetState | Kind::RunVcpu) => one(slot_of(
            store,
            l,
            guest as usize,
            number as usize,
        ).unwrap_or(l.slots)),
        Some(Kind::DeleteGuest) => Touched {
            first: 0,
            slots: dropped_slots(store, l, flags, guest),
        },
        Some(Kind::GetCapabilities | Kind::SetCapabilities | Kind::CreateGuest) | None => Touched {
            first: 0,
            slots: 0,
        },
    }
}

// A store of another length is no store: its call is refused.
pub fn touched(store: &[u8], l: Layout, kind: u64, flags: u64, guest: u64, number: u64) -> Touched
    requires { l ≡ layout_of store.now }
    ensures { result ≡ cond (eqb (length store.now) l.size) (touched_by l store.now kind flags guest number) no_slot }
{
    if store.len() != l.size {
        return Touched { first: 0, slots: 0 };
    }
    touched_with(store, l, kind, flags, guest, number)
}

// How many bytes of the data hold the elements that a call sets.
pub fn held_bytes(store: &[u8], l: Layout, kind: u64, slot: usize, len: usize) -> usize
    requires { l ≡ layout_of store.now }
    ensures { (result ≤ len) × HeldBytes l store.now kind slot len result }
{
    let Some(Kind::RunVcpu) = Kind::from_number(kind) else {
        return len;
    };
    if store.len() != l.size {
        return len;
    }
    if l.slots <= slot {
        return len;
    }
    let size = get64(store, slot_at(l, slot) + INPUT_SIZE);
    if len < size as usize {
        return len;
    }
    size as usize
}
