// What a run sends: a count and the changed elements, in order of ID, at the input's first bytes.
// Marks 192 to 361 are the changed marks of elements 0 to 169.
ghost use Rattle.std.specs.Prelude.{◌≡◌, true, ◌≤◌, ◌<◌, length};
ghost use Rattle.octets.specs.Bytes.{put};
ghost use Rattle.elements.specs.declared.Offer.TheVariants.{Full};
ghost use Rattle.gsb.specs.Message.{elements_bytes, message};
ghost use Rattle.exits.specs.Exits.{row_bytes, valued};
ghost use Rattle.l1.specs.Marks.{good_cache};
ghost use Rattle.l1.specs.Cache.{chosen, pending};
ghost use Rattle.l1.specs.Private.{is_changed, word_bytes};

use crate::marks::{Marks, changed_count, mark_from, next_mark};
use crate::value::Values;
use elements::thread_element;
use gsb::put_element;
use octets::put32;

// Word k of the marks whose element has 4, 8 or 16 bytes.
const FOURS: [u64; 3] = [0, 0x0000_01FF_FC00_0000, 0x0000_0000_0180_0000];

const EIGHTS: [u64; 3] = [
    0x3FFF_FFFF_FFFF_FFFF,
    0xFFFF_FE00_0000_0000,
    0x0000_0000_0240_0000,
];

const SIXTEENS: [u64; 3] = [
    0xC000_0000_0000_0000,
    0x0000_0000_03FF_FFFF,
    0xFFFF_FFFF_FC00_0000,
];

// How many bytes the elements of a word of changed marks take, each with four before its value.
#[tactic(auto, using(crate::proofs::Sizes::word_none, crate::proofs::Sizes::word_bytes_lem, crate::proofs::Sizes::word_small))]
fn word_bytes(marks: &Marks, k: usize) -> usize
    requires { k < 3 }
    ensures { (result ≡ word_bytes (is_changed marks.now) k) × (result ≤ 2560) }
{
    let word = marks[3 + k];
    if word == 0 {
        return 0;
    }
    8 * u64::count_ones(word & FOURS[k]) as usize
        + 12 * u64::count_ones(word & EIGHTS[k]) as usize
        + 20 * u64::count_ones(word & SIXTEENS[k]) as usize
}

// How many bytes the input takes.
#[tactic(auto, using(crate::proofs::Sizes::bytes_all))]
pub fn bytes_needed(marks: &Marks) -> usize
    ensures { result ≡ row_bytes (chosen (is_changed marks.now) 170) }
{
    4 + word_bytes(marks, 0) + word_bytes(marks, 1) + word_bytes(marks, 2)
}

// The elements, behind the count. Not in line: its loop has the registers to itself.
#[inline(never)]
fn put_changed(values: &Values, marks: &Marks, input: &mut [u8])
    requires { (good_cache Full (record { values = values.now; marks = marks.now }) ≡ true) × (row_bytes (chosen (is_changed marks.now) 170) ≤ length input.old) }
    ensures { input.new ≡ put input.old 4 (elements_bytes (valued 0 values.now (chosen (is_changed marks.now) 170))) }
{
    let mut at = 4;
    let mut next = mark_from(marks, 3);
    while let Some(mark) = next {
        let x = thread_element(mark.at - 192);
        at = put_element(input, at, x.id, values, x.position, x.size);
        next = next_mark(marks, mark);
    }
}

pub fn put_input(values: &Values, marks: &Marks, input: &mut [u8])
    requires { (good_cache Full (record { values = values.now; marks = marks.now }) ≡ true) × (length (message (pending (record { values = values.now; marks = marks.now }))) ≤ length input.old) }
    ensures { input.new ≡ put input.old 0 (message (pending (record { values = values.entry.now; marks = marks.now }))) }
{
    put32(input, 0, changed_count(marks));
    put_changed(values, marks, input);
}
