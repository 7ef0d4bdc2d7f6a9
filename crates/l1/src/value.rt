// What a write and a read of one element share: its tests, and its cell in the cache.
ghost use Rattle.std.specs.Prelude.{◌≡◌, ◌+◌, ◌≤◌, length};
ghost use Rattle.octets.specs.Bytes.{bytes_at, put};
ghost use Rattle.l1.specs.Marks.{Cache};
ghost use Rattle.l1.specs.Private.{element_good, Sized, Within, kept_at, changed_at};

use super::caches::good_marks;
use super::marks::{Marks, set_mark};
use answer::{Bad, Fault, Place};
use elements::{Cell, Offer};
use octets::copy;

// A call begins by a test that the lent bytes are so many. They and the marks go side by side: of a struct that holds both borrows
// each contract would have to say besides that they are still the same two.
pub type Values = [u8; 1820];

// 15, 5, 6 and 7; the cell, if the operation takes the ID.
#[tactic(auto, unfolding(crate::specs::Private::element_good))]
pub fn judge_element(
    offer: Offer,
    marks: &Marks,
    cell: Option<Cell>,
    value: &[u8],
) -> Result<Cell, Fault>
    ensures { result ≡ element_good offer marks.now cell value.now }
{
    if !good_marks(offer, marks) {
        return Err(Fault::Cache);
    }
    if 65528 < value.len() {
        return Err(Fault::Length);
    }
    let first = Place {
        index: 0,
        offset: 0,
    };
    let Some(x) = cell else {
        return Err(Fault::Element(Bad::Id, first));
    };
    if value.len() != x.size {
        return Err(Fault::Element(Bad::Size, first));
    }
    Ok(x)
}

// A value of one of the three sizes that thread elements have: each copy is of a known size, and stands in line.
pub fn copy_value(src: &[u8], from: usize, dst: &mut [u8], to: usize, size: usize)
    requires { Sized size × (from + size ≤ length src.now) × (to + size ≤ length dst.old) }
    ensures { dst.new ≡ put dst.old to (bytes_at src.now from size) }
{
    if size == 8 {
        return copy(src, from, dst, to, 8);
    }
    if size == 16 {
        return copy(src, from, dst, to, 16);
    }
    copy(src, from, dst, to, 4)
}

// The value stored, and valid.
pub fn keep_value(values: &mut Values, marks: &mut Marks, x: Cell, value: &[u8])
    requires { Within x × (length value.now ≡ x.size) }
    ensures { ◌≡◌ {A = Cache} (record { values = values.exit.now; marks = marks.new }) (kept_at (record { values = values.entry.now; marks = marks.old }) x value.now) }
{
    copy_value(value, 0, values, x.position, x.size);
    set_mark(marks, x.number);
}

// And changed.
pub fn change_value(values: &mut Values, marks: &mut Marks, x: Cell, value: &[u8])
    requires { Within x × (length value.now ≡ x.size) }
    ensures { ◌≡◌ {A = Cache} (record { values = values.exit.now; marks = marks.new }) (changed_at (record { values = values.entry.now; marks = marks.old }) x value.now) }
{
    keep_value(values, marks, x, value);
    set_mark(marks, 192 + x.number);
}
