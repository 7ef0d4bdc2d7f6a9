// Whether the marks of a cache are those of a well formed one, by a list.
ghost use Rattle.std.specs.Prelude.{◌≡◌, [], ◌*◌, ◌<◌, length};
ghost use Rattle.store.specs.Search.{every};
ghost use Rattle.l1.specs.Marks.{mark_good};
ghost use Rattle.l1.specs.Private.{good_marks, input_words};

use super::marks::Marks;
use elements::Offer;

// Word k of the marks that stand for an element, 0 to 169.
const ELEMENTS: [u64; 3] = [
    0xFFFF_FFFF_FFFF_FFFF,
    0xFFFF_FFFF_FFFF_FFFF,
    0xFFFF_FFFF_FFC0_0000,
];

// And of those whose element is permitted in a run input, by 01's list and by POWER9's.
const INPUTS: [u64; 3] = [
    0x3FFF_FFFF_FFFF_FFFF,
    0xFFFF_FFFF_FFFF_FFFF,
    0xFFFF_FFFF_FC00_0000,
];

const POWER9_INPUTS: [u64; 3] = [
    0x3FFF_FFFF_FFFF_F7FF,
    0xB3FF_87FB_FFFF_FFFF,
    0xFFFF_FFFF_FC00_0000,
];

// The three words of the inputs that a list has.
fn inputs_of(offer: Offer) -> [u64; 3]
    ensures { result ≡ input_words offer }
{
    match offer {
        Offer::Full => INPUTS,
        Offer::Power9 => POWER9_INPUTS,
    }
}

// The 64 marks of word k, valid and changed, at once: every write, read and run judges all 192. A word after the other: two in one
// load would wait for the mark that the last write stored.
fn word_good(offer: Offer, marks: &Marks, k: usize) -> bool
    requires { k < 3 }
    ensures { result ≡ every (mark_good offer (record { values = []; marks = marks.now })) 64 (64 * k) }
{
    let inputs = inputs_of(offer);
    let valid = marks[k];
    let changed = marks[3 + k];
    let beyond = valid & !ELEMENTS[k];
    let unfit = changed & !(valid & inputs[k]);
    beyond | unfit == 0
}

#[tactic(auto, using(crate::proofs::Marking::words_first, crate::proofs::Marking::words_second, crate::proofs::Marking::words_third))]
fn words_good(offer: Offer, marks: &Marks) -> bool
    ensures { result ≡ good_marks offer marks.now }
{
    word_good(offer, marks, 0) && word_good(offer, marks, 1) && word_good(offer, marks, 2)
}

// For each list a copy of the test, in which its masks are known.
pub fn good_marks(offer: Offer, marks: &Marks) -> bool
    ensures { result ≡ good_marks offer marks.now }
{
    match offer {
        Offer::Full => words_good(Offer::Full, marks),
        Offer::Power9 => words_good(Offer::Power9, marks),
    }
}
