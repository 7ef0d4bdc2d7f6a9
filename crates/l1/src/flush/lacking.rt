// What a run would send and the guest's own list lacks: only a cache call that was told another PVR than the guest's meets it.
ghost use Rattle.std.specs.Prelude.{◌≡◌, length};
ghost use Rattle.l1.specs.Cache.{chosen};
ghost use Rattle.l1.specs.Private.{is_changed, lacked_from};

use crate::marks::{Marks, mark_from, next_mark};
use answer::Place;
use elements::{Offer, is_offered, thread_element};

// The place of the first in the input that would be written. Of any marks, so the walk ends where one is past the last element.
pub fn first_lacked(offer: Offer, marks: &Marks) -> Place
    ensures { result ≡ lacked_from offer (chosen (is_changed marks.now) 170) 0 4 }
{
    let mut index = 0;
    let mut offset = 4;
    let mut next = mark_from(marks, 3);
    while let Some(mark) = next {
        if 362 <= mark.at {
            break;
        }
        let x = thread_element(mark.at - 192);
        if !is_offered(offer, x.id) {
            return Place { index, offset };
        }
        index += 1;
        offset = offset + 4 + x.size;
        next = next_mark(marks, mark);
    }
    Place { index, offset }
}
