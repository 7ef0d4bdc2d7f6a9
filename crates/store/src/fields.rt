// The fields of a store's header written: capabilities, live bits, slot words, taken marks. `header` reads them.
ghost use Rattle.std.specs.Prelude.{◌≡◌, cond, ◌+◌, ◌≤◌, ◌<◌, ◌*◌, length};
ghost use Rattle.octets.specs.Bits.{ins, put_bits};
ghost use Rattle.store.specs.Store.{put_capabilities, put_live, put_word, put_taken};

use super::Layout;
use octets::{put_bits, put16, put64, wide};

pub fn put_capabilities(s: &mut [u8], l: Layout, c: u64)
    requires { length s.old ≡ l.size }
    ensures { s.new ≡ put_capabilities s.old c }
{
    put64(s, 0, c);
}

// x with the bit b at digit k, counted from the least significant.
fn with_bit(x: u64, k: u64, b: u64) -> u8
    requires { (x < 256) × (k < 8) × (b < 2) }
    ensures { result ≡ ins x k 1 b }
{
    let high = x >> (k + 1) << (k + 1);
    let low = x - (x >> k << k);
    (high + (b << k) + low) as u8
}

// Bit i of the store becomes b.
fn set_bit(s: &mut [u8], i: usize, b: bool)
    requires { i < 8 * length s.old }
    ensures { s.new ≡ put_bits s.old i 1 (cond b 1 0) }
{
    let x = wide(s[i / 8]);
    s[i / 8] = with_bit(x, (7 - i % 8) as u64, u64::from(b));
}

pub fn set_live(s: &mut [u8], l: Layout, g: usize, b: bool)
    requires { (length s.old ≡ l.size) × (1 ≤ g) × (g ≤ l.guests) }
    ensures { s.new ≡ put_live s.old g (cond b 1 0) }
{
    set_bit(s, 63 + g, b);
}

pub fn put_word(s: &mut [u8], l: Layout, i: usize, w: usize)
    requires { (length s.old ≡ l.size) × (i < l.slots) × (w < 4096 * l.ids) }
    ensures { s.new ≡ put_word l s.old i w }
{
    if l.width == 16 {
        put16(s, l.words_at + 2 * i, w as u16);
        return;
    }
    put_bits(s, 8 * l.words_at + l.width * i, l.width, w as u64);
}

pub fn set_taken(s: &mut [u8], l: Layout, a: usize, b: bool)
    requires { (length s.old ≡ l.size) × (a < l.slots) }
    ensures { s.new ≡ put_taken l s.old a (cond b 1 0) }
{
    set_bit(s, 8 * l.taken_at + a, b);
}
