// What a store's header says: capabilities, live guests, slot words, taken marks. `slots` searches in them.
ghost use Rattle.std.specs.Prelude.{◌≡◌, ◌<◌, ◌*◌, length};
ghost use Rattle.store.specs.Header.{header, capabilities_of, live, word, is_taken};

use super::Layout;
use octets::{get_bits, get16, get64, wide};

pub fn capabilities_of(s: &[u8], l: Layout) -> u64
    requires { length s.now ≡ l.size }
    ensures { result ≡ capabilities_of (header l s.now) }
{
    get64(s, 0)
}

// A word of two bytes is read as such: the compiler then compares all words of a small store at once.
pub fn slot_word(s: &[u8], l: Layout, i: usize) -> usize
    requires { (length s.now ≡ l.size) × (i < l.slots) }
    ensures { (result ≡ word l (header l s.now) i) × (result < 4096 * l.ids) }
{
    if l.width == 16 {
        return get16(s, l.words_at + 2 * i) as usize;
    }
    get_bits(s, 8 * l.words_at + l.width * i, l.width) as usize
}

// The bit is read here and in `is_taken` alike, not by one function of the bit's number: by that the compiler does not see that a small
// store's live bits are one byte, and the test of such a store takes a fifth more instructions.
pub fn is_live(s: &[u8], l: Layout, g: usize) -> bool
    requires { length s.now ≡ l.size }
    ensures { result ≡ live l (header l s.now) g }
{
    if g < 1 || l.guests < g {
        return false;
    }
    let i = g - 1;
    (wide(s[8 + i / 8]) << (i % 8)) / 128 % 2 == 1
}

pub fn is_taken(s: &[u8], l: Layout, a: usize) -> bool
    requires { (length s.now ≡ l.size) × (a < l.slots) }
    ensures { result ≡ is_taken l (header l s.now) a }
{
    (wide(s[l.taken_at + a / 8]) << (a % 8)) / 128 % 2 == 1
}
