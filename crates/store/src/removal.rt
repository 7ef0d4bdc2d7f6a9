// Guests removed from a store: their live bits, slot words and taken marks. Values stay.
ghost use Rattle.std.specs.Prelude.{◌≡◌, ◌≤◌, ◌<◌, length};
ghost use Rattle.store.specs.Store.{put_slot, drop_word, drop_words, without_guest, no_words, no_guests, without_guests};

use super::Layout;
use super::fields::{put_word, set_live, set_taken};
use super::header::slot_word;

// Slot a unused: neither a word nor a mark.
fn empty_slot(s: &mut [u8], l: Layout, a: usize)
    requires { (length s.old ≡ l.size) × (a < l.slots) }
    ensures { s.new ≡ put_slot l s.old a 0 }
{
    set_taken(s, l, a, false);
    put_word(s, l, a, 0);
}

fn drop_word(s: &mut [u8], l: Layout, g: usize, a: usize)
    requires { (length s.old ≡ l.size) × (1 ≤ g) × (g ≤ l.guests) × (a < l.slots) }
    ensures { s.new ≡ drop_word l g a s.old }
{
    if slot_word(s, l, a) / 2048 != l.ids + g {
        return;
    }
    empty_slot(s, l, a);
}

fn drop_words(s: &mut [u8], l: Layout, g: usize)
    requires { (length s.old ≡ l.size) × (1 ≤ g) × (g ≤ l.guests) }
    ensures { s.new ≡ drop_words l g l.slots s.old }
{
    for a in 0..l.slots {
        drop_word(s, l, g, a);
    }
}

pub fn without_guest(s: &mut [u8], l: Layout, g: usize)
    requires { (length s.old ≡ l.size) × (1 ≤ g) × (g ≤ l.guests) }
    ensures { s.new ≡ without_guest l s.old g }
{
    drop_words(s, l, g);
    set_live(s, l, g, false);
}

fn no_words(s: &mut [u8], l: Layout)
    requires { length s.old ≡ l.size }
    ensures { s.new ≡ no_words l l.slots s.old }
{
    for a in 0..l.slots {
        empty_slot(s, l, a);
    }
}

fn no_guests(s: &mut [u8], l: Layout)
    requires { length s.old ≡ l.size }
    ensures { s.new ≡ no_guests l.guests s.old }
{
    for g in 1..l.guests + 1 {
        set_live(s, l, g, false);
    }
}

pub fn without_guests(s: &mut [u8], l: Layout)
    requires { length s.old ≡ l.size }
    ensures { s.new ≡ without_guests l s.old }
{
    no_words(s, l);
    no_guests(s, l);
}
