// A store written as one of another layout, which has all its guests and slots: request L6. Every byte of the target is written, whatever it held.
ghost use Rattle.std.specs.Prelude.{◌≡◌, true, cond, ◌≤◌, ◌<◌, ◌*◌, length};
ghost use Rattle.store.specs.Header.{header, live, word, guest_of, is_taken};
ghost use Rattle.store.specs.Store.{well_formed, put_live, put_word, put_taken};
ghost use Rattle.store.specs.Conversion.{Within, recoded, copied_lives, copied_marks, copied_words, copied_header, converted};

use super::Layout;
use super::fields::{put_word, set_live, set_taken};
use super::header::{is_live, is_taken, slot_word};
use octets::{clear, copy};

// The guest and the vCPU stay; where the used bit stands goes by the width.
fn recode(l: Layout, m: Layout, w: usize) -> usize
    requires { Within l m × (guest_of l w ≤ l.guests) }
    ensures { (result ≡ recoded l m w) × (result < 4096 * m.ids) }
{
    if w < l.ids * 2048 {
        0
    } else {
        w - l.ids * 2048 + m.ids * 2048
    }
}

fn copy_lives(s: &[u8], l: Layout, t: &mut [u8], m: Layout)
    requires { Within l m × (length s.now ≡ l.size) × (length t.old ≡ m.size) }
    ensures { t.new ≡ copied_lives l (header l s.now) l.guests t.old }
{
    for g in 1..l.guests + 1 {
        set_live(t, m, g, is_live(s, l, g));
    }
}

fn copy_marks(s: &[u8], l: Layout, t: &mut [u8], m: Layout)
    requires { Within l m × (length s.now ≡ l.size) × (length t.old ≡ m.size) }
    ensures { t.new ≡ copied_marks l m (header l s.now) l.slots t.old }
{
    for a in 0..l.slots {
        set_taken(t, m, a, is_taken(s, l, a));
    }
}

fn copy_words(s: &[u8], l: Layout, t: &mut [u8], m: Layout)
    requires { Within l m × (well_formed l s.now ≡ true) × (length t.old ≡ m.size) }
    ensures { t.new ≡ copied_words l m (header l s.now) l.slots t.old }
{
    for a in 0..l.slots {
        put_word(t, m, a, recode(l, m, slot_word(s, l, a)));
    }
}

fn copy_header(s: &[u8], l: Layout, t: &mut [u8], m: Layout)
    requires { Within l m × (well_formed l s.now ≡ true) × (length t.old ≡ m.size) }
    ensures { t.new ≡ copied_header l m s.now }
{
    clear(t, 0, m.size);
    copy(s, 0, t, 0, 8);
    copy_lives(s, l, t, m);
    copy_marks(s, l, t, m);
    copy_words(s, l, t, m);
}

pub fn converted(s: &[u8], l: Layout, t: &mut [u8], m: Layout)
    requires { Within l m × (well_formed l s.now ≡ true) × (length t.old ≡ m.size) }
    ensures { t.new ≡ converted l m s.now }
{
    copy_header(s, l, t, m);
    copy(s, l.guests_at, t, m.guests_at, 52 * l.guests);
    copy(s, l.slots_at, t, m.slots_at, 1820 * l.slots);
}
