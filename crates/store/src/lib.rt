// The lent store: its layouts, and where a guest's and a slot's values start. `header`, `slots`, `formed` and `filter` read its header,
// `fields`, `update` and `removal` change it, `conversion` writes it as one of another size; what they all mean is defined here.
#![tactic(auto)]

mod conversion;
mod fields;
mod filter;
mod formed;
mod header;
mod removal;
mod slots;
mod update;

ghost use Rattle.std.specs.Prelude.{◌≡◌, ◌+◌, ◌≤◌, ◌<◌, ◌*◌};
ghost use Rattle.store.specs.Layout.{small, large, layout_of, guest_at, slot_at, guest_bytes, slot_bytes};

pub use conversion::converted;
pub use fields::{put_capabilities, set_taken};
pub use formed::well_formed;
pub use header::{capabilities_of, is_live, is_taken, slot_word};
pub use removal::{without_guest, without_guests};
pub use slots::{any_live, free_guest, free_slot, slot_of};
use std::marker::Model;
pub use update::{with_guest, with_vcpu};

// Numbers of guests and slots, and where slot words, taken marks, guests' values and slots' values start. `zeros` is how many zero bits
// follow the live bits, `ids` how many guest ids a slot word of `width` bits can name.
#[derive(Clone, Copy)]
pub struct Layout {
    pub guests: usize,
    pub zeros: usize,
    pub slots: usize,
    pub ids: usize,
    pub width: usize,
    pub words_at: usize,
    pub taken_at: usize,
    pub guests_at: usize,
    pub slots_at: usize,
    pub size: usize,
}

// A clause sees the ten numbers, which are sound in every layout.
impl Model for Layout {
    ghost use Rattle.store.specs.Numbers.{Numbers, Sound};

    ghost Value = { Numbers };

    ghost view = { λ a. record { guests = a.guests; zeros = a.zeros; slots = a.slots; ids = a.ids; width = a.width; words_at = a.words_at; taken_at = a.taken_at; guests_at = a.guests_at; slots_at = a.slots_at; size = a.size } };

    ghost invariant = { λ a. Sound (record { guests = a.guests; zeros = a.zeros; slots = a.slots; ids = a.ids; width = a.width; words_at = a.words_at; taken_at = a.taken_at; guests_at = a.guests_at; slots_at = a.slots_at; size = a.size }) };

    ghost inverse = { λ l. record { guests = l.guests; zeros = l.zeros; slots = l.slots; ids = l.ids; width = l.width; words_at = l.words_at; taken_at = l.taken_at; guests_at = l.guests_at; slots_at = l.slots_at; size = l.size } };
}

// 01's store with the taken marks of request L1: 29,580 bytes.
pub fn small_layout() -> Layout
    ensures { result ≡ small }
{
    Layout {
        guests: 8,
        zeros: 8,
        slots: 16,
        ids: 16,
        width: 16,
        words_at: 10,
        taken_at: 42,
        guests_at: 44,
        slots_at: 460,
        size: 29580,
    }
}

// Request L6: 63 guests and 64 slots in 119,924 bytes.
pub fn large_layout() -> Layout
    ensures { result ≡ large }
{
    Layout {
        guests: 63,
        zeros: 1,
        slots: 64,
        ids: 64,
        width: 18,
        words_at: 24,
        taken_at: 16,
        guests_at: 168,
        slots_at: 3444,
        size: 119924,
    }
}

// The two sizes are told apart by length; any other length is that of no store.
pub fn layout_of(s: &[u8]) -> Layout
    ensures { result ≡ layout_of s.now }
{
    if s.len() == 119924 {
        return large_layout();
    }
    small_layout()
}

pub fn guest_at(l: Layout, g: usize) -> usize
    requires { (1 ≤ g) × (g ≤ l.guests) }
    ensures { (result ≡ guest_at l g) × (l.guests_at ≤ result) × (result + guest_bytes ≤ l.slots_at) }
{
    l.guests_at + 52 * (g - 1)
}

pub fn slot_at(l: Layout, j: usize) -> usize
    requires { j < l.slots }
    ensures { (result ≡ slot_at l j) × (l.slots_at ≤ result) × (result + slot_bytes ≤ l.size) }
{
    l.slots_at + 1820 * j
}
