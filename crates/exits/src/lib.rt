// The exits of a run: which elements each returns, and the output that they make.
#![tactic(auto)]

ghost use Rattle.std.specs.Prelude.{◌≡◌, true, false, ◌+◌, ◌≤◌, ◌<◌, ◌^◌, length, MatchOption};
ghost use Rattle.octets.specs.Bytes.{bytes_at, put};
ghost use Rattle.elements.specs.Table.{number_of};
ghost use Rattle.gsb.specs.Message.{element_bytes};
ghost use Rattle.exits.specs.Exits.{known, returned, element_of, output_of};

use elements::{number_of, register_of, thread_element};
use gsb::put_element;
use octets::put32;

// The IDs of the elements that a run with this exit returns; none where the exit is unknown.
#[tactic(auto, unfolding(crate::specs::Exits::exits, crate::specs::Exits::is_among, crate::specs::Exits::row_of))]
pub fn returned(exit: u64) -> Option<&'static [u16]>
    ensures { MatchOption result (known exit ≡ false) (λ ids. (known exit ≡ true) × (ids.now ≡ returned exit)) }
{
    match exit {
        0x0C00 => Some(&[
            0x1003, 0x1004, 0x1005, 0x1006, 0x1007, 0x1008, 0x1009, 0x100A, 0x100B, 0x100C,
        ]),
        0x0E00 => Some(&[0xF000, 0xF001, 0xF003]),
        0x0E20 => Some(&[0xF003]),
        0x0E40 => Some(&[0xF002]),
        0x0F80 => Some(&[0x102D]),
        0x0000 | 0x0980 => Some(&[]),
        _ => None,
    }
}

pub fn is_known(exit: u64) -> bool
    ensures { result ≡ known exit }
{
    returned(exit).is_some()
}

// A thread element with its value in the slot; returns where the next goes. The registers come first.
fn put_thread(store: &[u8], base: usize, id: u16, output: &mut [u8], at: usize) -> usize
    requires { (number_of id < 170) × ((element_of id).size < 2 ^ 16) × (base + (element_of id).position + (element_of id).size ≤ length store.now) × (at + 4 + (element_of id).size ≤ length output.old) }
    ensures { (result ≡ at + 4 + (element_of id).size) × (output.new ≡ put output.old at (element_bytes id (bytes_at store.now (base + (element_of id).position) (element_of id).size))) }
{
    if let Some(r) = register_of(id) {
        return put_element(output, at, id, store, base + r.position, r.size);
    }
    let x = thread_element(number_of(id));
    put_element(output, at, id, store, base + x.position, x.size)
}

// The output of a run that left with a known exit: the values are those of the slot, which starts at `base`.
pub fn put_output(store: &[u8], base: usize, exit: u64, output: &mut [u8])
    requires { (known exit ≡ true) × (base + 1820 ≤ length store.now) × (124 ≤ length output.old) }
    ensures { output.new ≡ put output.old 0 (output_of base store.now exit) }
{
    let ids = returned(exit).unwrap_or(&[]);
    put32(output, 0, ids.len() as u32);
    let mut at = 4;
    for id in ids {
        at = put_thread(store, base, *id, output, at);
    }
}
