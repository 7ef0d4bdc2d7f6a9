// That no two slot words are alike, told by a filter: 512 bits, one for each hash of a used word. A word whose bit is clear is new for sure,
// and only one whose bit is set is compared with those before it. As in `formed`, no array of slot words is kept, nor more than two at once.
ghost use Rattle.std.specs.Prelude.{◌≡◌, ◌≤◌, ◌<◌, ◌^◌, length};
ghost use Rattle.store.specs.Header.{header, alone, words_good};
ghost use Rattle.store.specs.Filter.{hash_of, met, meet, Noted, Tested};

use super::Layout;
use super::header::{is_live, is_taken, slot_word};

// Few words of vCPU ids that follow one another have the same hash.
fn hash(w: usize) -> usize
    requires { w < 2 ^ 18 }
    ensures { (result ≡ hash_of w) × (result < 512) }
{
    (w + w / 2048 * 35) % 512
}

// Whether the word may stand among those before it. From now on it does.
fn note(seen: &mut [u64; 8], w: usize) -> bool
    requires { w < 2 ^ 18 }
    ensures { (result ≡ met seen.old w) × (seen.new ≡ meet seen.old w) }
{
    let h = hash(w);
    let i = h % 8;
    let x = seen[i];
    let y = x | 1u64 << (h / 8);
    if y == x {
        return true;
    }
    seen[i] = y;
    false
}

// Compares the word with all before slot a.
fn is_alone(s: &[u8], l: Layout, w: usize, a: usize) -> bool
    requires { (length s.now ≡ l.size) × (a ≤ l.slots) }
    ensures { result ≡ alone l (header l s.now) w a }
{
    (0..a).all(|b| slot_word(s, l, b) != w)
}

fn slot_filtered(s: &[u8], l: Layout, seen: &mut [u64; 8], a: usize) -> bool
    requires { (length s.now ≡ l.size) × (a < l.slots) × Noted l (header l s.now) seen.old a }
    ensures { Tested l (header l s.now) seen.new a result }
{
    let w = slot_word(s, l, a);
    if w == 0 {
        return !is_taken(s, l, a);
    }
    if w / 2048 < l.ids || !is_live(s, l, w / 2048 - l.ids) {
        return false;
    }
    if !note(seen, w) {
        return true;
    }
    is_alone(s, l, w, a)
}

pub fn words_filtered(s: &[u8], l: Layout) -> bool
    requires { length s.now ≡ l.size }
    ensures { result ≡ words_good l (header l s.now) }
{
    let mut seen = [0u64; 8];
    for a in 0..l.slots {
        if !slot_filtered(s, l, &mut seen, a) {
            return false;
        }
    }
    true
}
