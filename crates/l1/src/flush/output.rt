// What a run's output does to the cache: its elements are valid with its values, and nothing else is.
ghost use Rattle.std.specs.Prelude.{◌≡◌, length};
ghost use Rattle.elements.specs.Cells.{cell_of};
ghost use Rattle.gsb.specs.Walk.{id_at, next_at};
ghost use Rattle.transfer.specs.Transfer.{value_at};
ghost use Rattle.l1.specs.Marks.{Cache};
ghost use Rattle.l1.specs.Cache.{refreshed};
ghost use Rattle.l1.specs.Private.{kept_at, Keeps, AllKeeps};

use crate::marks::{Marks, set_mark};
use crate::value::{Values, copy_value};
use elements::{listed_cell, register_cell};
use octets::{copy, get16, get32};

// The element at `at`, kept; tells where the next starts.
fn keep_other(values: &mut Values, marks: &mut Marks, b: &[u8], at: usize) -> usize
    requires { Keeps b.now at }
    ensures value { result ≡ next_at b.now at }
    ensures fact { ◌≡◌ {A = Cache} (record { values = values.exit.now; marks = marks.new }) (kept_at (record { values = values.entry.now; marks = marks.old }) (cell_of (id_at b.now at)) (value_at b.now at)) }
{
    let x = listed_cell(get16(b, at));
    copy_value(b, at + 4, values, x.position, x.size);
    set_mark(marks, x.number);
    at + 4 + x.size
}

// A register of 8 bytes, as most elements of outputs are, with no look at its size: the next element does not wait for it.
fn keep_element(values: &mut Values, marks: &mut Marks, b: &[u8], at: usize) -> usize
    requires { Keeps b.now at }
    ensures value { result ≡ next_at b.now at }
    ensures fact { ◌≡◌ {A = Cache} (record { values = values.exit.now; marks = marks.new }) (kept_at (record { values = values.entry.now; marks = marks.old }) (cell_of (id_at b.now at)) (value_at b.now at)) }
{
    let x = match register_cell(get16(b, at)) {
        Some(x) if x.size == 8 => x,
        _ => return keep_other(values, marks, b, at),
    };
    copy(b, at + 4, values, x.position, 8);
    set_mark(marks, x.number);
    at + 12
}

pub fn refresh(values: &mut Values, marks: &mut Marks, output: &[u8])
    requires { AllKeeps output.now }
    ensures { ◌≡◌ {A = Cache} (record { values = values.exit.now; marks = marks.new }) (refreshed (record { values = values.entry.now; marks = marks.old }) output.now) }
{
    *marks = [0; 6];
    let count = get32(output, 0) as usize;
    let mut at = 4;
    for _i in 0..count {
        at = keep_element(values, marks, output, at);
    }
}
