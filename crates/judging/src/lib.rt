// A vendor's output buffer judged against the elements of an exit, whose values are those of our store. `marks` has which of them were
// there, `values` compares a value; the walk and the operation are here.
#![tactic(auto)]

mod marks;
mod values;

ghost use Rattle.std.specs.Prelude.{◌≡◌, ◌+◌, ◌≤◌, length};
ghost use Rattle.gsb.specs.Message.{elements_in};
ghost use Rattle.store.specs.Layout.{layout_of, slot_bytes};
ghost use Rattle.exits.specs.Exits.{valued};
ghost use Rattle.judging.specs.Judging.{compared, judge_output};
ghost use Rattle.judging.specs.Private.{marks, GoodIds, Reached, stepped, fault_in, finding, judged_at};

use admission::target_of;
use answer::{Answer, Bad, Fault, Place, refusal, success};
use exits::returned;
use gsb::bad_length;
use marks::{first_unmarked, new_place};
use octets::{get16, get32};
use values::{cell_of, same_value};

// Element i, at `at`, of which `seen` marks those before it: header, ID, size, end and value, in this order. Gives where the next starts,
// and the marks with its own.
fn compare(
    store: &[u8],
    base: usize,
    ids: &[u16],
    seen: u64,
    b: &[u8],
    i: usize,
    at: usize,
) -> Result<(usize, u64), Fault>
    requires slot_bytes_in_bounds { base + slot_bytes ≤ length store.now }
    requires good_ids { GoodIds ids.now }
    requires reached { Reached ids.now b.now i at seen }
    ensures { result ≡ stepped (compared (valued base store.now ids.now) b.now at) (marks ids.now (elements_in b.now (i + 1))) i at }
{
    let place = Place {
        index: i,
        offset: at,
    };
    if b.len() - at < 4 {
        return Err(Fault::Element(Bad::Size, place));
    }
    let id = get16(b, at);
    let size = get16(b, at + 2) as usize;
    if id == 0 {
        if b.len() - at - 4 < size {
            return Err(Fault::Element(Bad::Size, place));
        }
        return Ok((at + 4 + size, seen));
    }
    let Some(new) = new_place(ids, seen, id) else {
        return Err(Fault::Element(Bad::Id, place));
    };
    let cell = cell_of(id);
    if cell.size != size {
        return Err(Fault::Element(Bad::Size, place));
    }
    if b.len() - at - 4 < size {
        return Err(Fault::Element(Bad::Size, place));
    }
    if !same_value(b, at + 4, store, base + cell.position, size) {
        return Err(Fault::Element(Bad::Value, place));
    }
    Ok((at + 4 + size, seen + (1u64 << new)))
}

// The counted elements, to the first bad one; then 20. The count is never trusted.
fn judge_elements(store: &[u8], base: usize, ids: &[u16], b: &[u8]) -> Result<(), Fault>
    requires slot_bytes_in_bounds { base + slot_bytes ≤ length store.now }
    requires good_ids { GoodIds ids.now }
    requires in_bounds { 4 ≤ length b.now }
    ensures { fault_in result ≡ finding (valued base store.now ids.now) b.now }
{
    let count = get32(b, 0) as usize;
    let mut at = 4;
    let mut seen = 0;
    for i in 0..count {
        let (next, marked) = compare(store, base, ids, seen, b, i, at)?;
        at = next;
        seen = marked;
    }
    match first_unmarked(ids, seen) {
        Some(id) => Err(Fault::Missing(u64::from(id))),
        None => Ok(()),
    }
}

// 5 and 13, then the elements.
fn judge_at(store: &[u8], base: usize, exit: u64, b: &[u8]) -> Result<(), Fault>
    requires { base + slot_bytes ≤ length store.now }
    ensures { fault_in result ≡ judged_at base store.now exit b.now }
{
    if bad_length(b) {
        return Err(Fault::Length);
    }
    let Some(ids) = returned(exit) else {
        return Err(Fault::Exit);
    };
    judge_elements(store, base, ids, b)
}

// A vendor's output of a run that left with this exit reason, against the store that our run left. Nothing is written.
pub fn judge_output(store: &[u8], guest: u64, vcpu: u64, exit_reason: u64, buffer: &[u8]) -> Answer
    ensures { result ≡ judge_output (layout_of store.now) store.now guest vcpu exit_reason buffer.now }
{
    let base = match target_of(store, 0, 0, false, guest as usize, vcpu as usize) {
        Ok(base) => base,
        Err(fault) => return refusal(fault),
    };
    match judge_at(store, base, exit_reason, buffer) {
        Ok(()) => success(0),
        Err(fault) => refusal(fault),
    }
}
