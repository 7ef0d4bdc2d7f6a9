// Searches in a store's header: the slot of a vCPU, and the lowest free slot and guest. Where the code has `None`, the definitions have the
// number past the last.
ghost use Rattle.std.specs.Prelude.{◌≡◌, ◌+◌, ◌*◌, ◌≤◌, ◌<◌, ◌^◌, length, unwrap_or, IfSome};
ghost use Rattle.octets.specs.Private.{swap2};
ghost use Rattle.store.specs.Layout.{layout_of};
ghost use Rattle.store.specs.Header.{any_live, header, holds, slot_holding, slot_of, free_slot, free_guest};

use super::header::{is_live, slot_word};
use super::{Layout, large_layout, small_layout};
use octets::{pair, swap16};

// p is w swapped: each word of two bytes is then compared as it lies in the store.
fn holds_pair(s: &[u8], l: Layout, i: usize, w: usize, p: u16) -> bool
    requires { (length s.now ≡ l.size) × (i < l.slots) × (w < 2 ^ 16) × (p ≡ swap2 w) × (l.width ≡ 16) }
    ensures { result ≡ holds l (header l s.now) w i }
{
    pair(s, l.words_at + 2 * i) == p
}

fn pair_holding(s: &[u8], l: Layout, w: usize) -> Option<usize>
    requires { (length s.now ≡ l.size) × (w < 2 ^ 16) × (l.width ≡ 16) }
    ensures slot { unwrap_or result l.slots ≡ slot_holding l (header l s.now) w }
    ensures below { IfSome result (λ i. i < l.slots) }
{
    let p = swap16(w as u16);
    (0..l.slots).find(|&i| holds_pair(s, l, i, w, p))
}

fn bits_holding(s: &[u8], l: Layout, w: usize) -> Option<usize>
    requires { length s.now ≡ l.size }
    ensures slot { unwrap_or result l.slots ≡ slot_holding l (header l s.now) w }
    ensures below { IfSome result (λ i. i < l.slots) }
{
    (0..l.slots).find(|&i| slot_word(s, l, i) == w)
}

// A search for each size, in which its numbers are known.
fn slot_holding(s: &[u8], l: Layout, w: usize) -> Option<usize>
    requires { (l ≡ layout_of s.now) × (length s.now ≡ l.size) × (w < 4096 * l.ids) }
    ensures slot { unwrap_or result l.slots ≡ slot_holding l (header l s.now) w }
    ensures below { IfSome result (λ i. i < l.slots) }
{
    if l.slots <= 16 {
        return pair_holding(s, small_layout(), w);
    }
    bits_holding(s, large_layout(), w)
}

// The slot of a live guest's vCPU.
pub fn slot_of(s: &[u8], l: Layout, g: usize, v: usize) -> Option<usize>
    requires { (l ≡ layout_of s.now) × (length s.now ≡ l.size) }
    ensures slot { unwrap_or result l.slots ≡ slot_of l (header l s.now) g v }
    ensures below { IfSome result (λ j. j < l.slots) }
{
    if !is_live(s, l, g) || 2048 <= v {
        return None;
    }
    slot_holding(s, l, (l.ids + g) * 2048 + v)
}

pub fn free_slot(s: &[u8], l: Layout) -> Option<usize>
    requires { (l ≡ layout_of s.now) × (length s.now ≡ l.size) }
    ensures slot { unwrap_or result l.slots ≡ free_slot l (header l s.now) }
    ensures below { IfSome result (λ j. j < l.slots) }
{
    slot_holding(s, l, 0)
}

pub fn free_guest(s: &[u8], l: Layout) -> Option<usize>
    requires { length s.now ≡ l.size }
    ensures guest { unwrap_or result (l.guests + 1) ≡ free_guest l (header l s.now) }
    ensures below { IfSome result (λ g. (1 ≤ g) × (g ≤ l.guests)) }
{
    (1..l.guests + 1).find(|&g| !is_live(s, l, g))
}

pub fn any_live(s: &[u8], l: Layout) -> bool
    requires { length s.now ≡ l.size }
    ensures { result ≡ any_live l (header l s.now) }
{
    (1..l.guests + 1).any(|g| is_live(s, l, g))
}
