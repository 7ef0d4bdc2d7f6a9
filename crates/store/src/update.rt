// Guests and vCPUs added to a store: the live bit, or the slot word and no mark, and values of zeros. `removal` removes them.
ghost use Rattle.std.specs.Prelude.{◌≡◌, ◌≤◌, ◌<◌, length};
ghost use Rattle.store.specs.Store.{with_guest, with_vcpu};

use super::fields::{put_word, set_live, set_taken};
use super::{Layout, guest_at, slot_at};
use octets::clear;

pub fn with_guest(s: &mut [u8], l: Layout, g: usize)
    requires { (length s.old ≡ l.size) × (1 ≤ g) × (g ≤ l.guests) }
    ensures { s.new ≡ with_guest l s.old g }
{
    set_live(s, l, g, true);
    clear(s, guest_at(l, g), 52);
}

pub fn with_vcpu(s: &mut [u8], l: Layout, j: usize, g: usize, v: usize)
    requires { (length s.old ≡ l.size) × (j < l.slots) × (g ≤ l.guests) × (v < 2048) }
    ensures { s.new ≡ with_vcpu l s.old j g v }
{
    set_taken(s, l, j, false);
    put_word(s, l, j, (l.ids + g) * 2048 + v);
    clear(s, slot_at(l, j), 1820);
}
