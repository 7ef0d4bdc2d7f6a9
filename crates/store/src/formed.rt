// Whether a store is well formed. 02, L3, "Less stack on the service processor": slot words are read from the lent store, and no array of
// them is kept. A function here, and all that it calls, has two of them at once at most: the one that is tested, and one that it is
// compared with. That no two words are alike is told in two ways: in the small store by counting how often each stands, in the large one by a
// filter (`filter`).
ghost use Rattle.std.specs.Prelude.{◌≡◌, cond, ◌≤◌, ◌<◌, length};
ghost use Rattle.store.specs.Layout.{small, large, layout_of};
ghost use Rattle.store.specs.Private.{times_of, slot_counted, head_formed};
ghost use Rattle.store.specs.Header.{header, holds, head_good, words_good};
ghost use Rattle.store.specs.Store.{well_formed};

use super::filter::words_filtered;
use super::header::{is_live, is_taken, slot_word};
use super::{Layout, large_layout, small_layout};
use octets::{get64, wide};

// How many slots hold the word. It does not leave early: the compiler compares all words at once.
fn times(s: &[u8], l: Layout, w: usize) -> u16
    requires { length s.now ≡ l.size }
    ensures { result ≡ times_of l (header l s.now) w }
{
    let mut n: u16 = 0;
    for b in 0..l.slots {
        n += u16::from(slot_word(s, l, b) == w);
    }
    n
}

// A used word stands once, which is what no two alike comes to. Only an unused slot's mark is looked at.
fn slot_counted(s: &[u8], l: Layout, a: usize) -> bool
    requires { (length s.now ≡ l.size) × (a < l.slots) }
    ensures { result ≡ slot_counted l (header l s.now) a }
{
    let w = slot_word(s, l, a);
    if w == 0 {
        return !is_taken(s, l, a);
    }
    if w / 2048 < l.ids || !is_live(s, l, w / 2048 - l.ids) {
        return false;
    }
    times(s, l, w) == 1
}

// 02, L3: the test of the slot words keeps no array of them in a local, a parameter or a result, nor more than two at once.
fn words_counted(s: &[u8], l: Layout) -> bool
    requires { length s.now ≡ l.size }
    ensures { result ≡ words_good l (header l s.now) }
{
    (0..l.slots).all(|a| slot_counted(s, l, a))
}

fn head_good(s: &[u8], l: Layout) -> bool
    requires { length s.now ≡ l.size }
    ensures { result ≡ head_good l (header l s.now) }
{
    if get64(s, 0) & !0x6000_0000_0000_0000 != 0 {
        return false;
    }
    let x = wide(s[(64 + l.guests) / 8]);
    x == x >> l.zeros << l.zeros
}

fn head_formed(s: &[u8], l: Layout) -> bool
    ensures { result ≡ head_formed l s.now }
{
    s.len() == l.size && head_good(s, l)
}

// In each arm the numbers of its size are known.
pub fn well_formed(s: &[u8], l: Layout) -> bool
    requires { l ≡ layout_of s.now }
    ensures { result ≡ well_formed l s.now }
{
    if l.slots <= 16 {
        let l = small_layout();
        head_formed(s, l) && words_counted(s, l)
    } else {
        let l = large_layout();
        head_formed(s, l) && words_filtered(s, l)
    }
}
