// A read of one element into a lent buffer: from the cache where it is valid, else from get state, and then it is kept.
ghost use Rattle.std.specs.Prelude.{◌≡◌, true, length};
ghost use Rattle.answer.specs.Answer.{told, accepted};
ghost use Rattle.store.specs.Layout.{layout_of};
ghost use Rattle.elements.specs.declared.Offer.TheVariants.{Full};
ghost use Rattle.elements.specs.Cells.{cell_of};
ghost use Rattle.state.specs.State.{got_element};
ghost use Rattle.l1.specs.Marks.{is_readable};
ghost use Rattle.l1.specs.Cache.{ReadOutcome, fetched, read_cache};
ghost use Rattle.l1.specs.Private.{read_value};

use super::marks::{Marks, is_marked};
use super::named::readable_cell;
use super::value::{Values, copy_value, judge_element, keep_value};
use answer::{Answer, Call, Fault, refusal, registers_of, success};
use elements::{Cell, offer_of};
use state::get_element;

fn is_accepted(call: Call, answer: Answer) -> bool
    ensures { result ≡ accepted (told call answer.fault answer.value) }
{
    registers_of(call, answer).r3 == 0
}

// An element that is not valid.
fn fetch(
    store: &[u8],
    guest: u64,
    vcpu: u64,
    values: &mut Values,
    marks: &mut Marks,
    id: u16,
    x: Cell,
    value: &mut [u8],
) -> Answer
    requires { (is_readable Full id ≡ true) × (length value.old ≡ x.size) × (x ≡ cell_of id) }
    ensures { ◌≡◌ {A = ReadOutcome} (record { answer = result; cache = record { values = values.exit.now; marks = marks.new }; value = value.new }) (fetched (record { values = values.entry.now; marks = marks.old }) id (length value.old) (got_element (layout_of store.now) store.now guest vcpu id value.old)) }
{
    let answer = get_element(store, guest, vcpu, id, value);
    if !is_accepted(Call::CacheRead, answer) {
        return answer;
    }
    keep_value(values, marks, x, value);
    answer
}

// An element that passed its tests.
fn read_value(
    store: &[u8],
    guest: u64,
    vcpu: u64,
    values: &mut Values,
    marks: &mut Marks,
    id: u16,
    x: Cell,
    value: &mut [u8],
) -> Answer
    requires { (is_readable Full id ≡ true) × (length value.old ≡ x.size) × (x ≡ cell_of id) }
    ensures { ◌≡◌ {A = ReadOutcome} (record { answer = result; cache = record { values = values.exit.now; marks = marks.new }; value = value.new }) (read_value store.now guest vcpu (record { values = values.entry.now; marks = marks.old }) id value.old) }
{
    if !is_marked(marks, x.number) {
        return fetch(store, guest, vcpu, values, marks, id, x, value);
    }
    copy_value(values, x.position, value, 0, x.size);
    success(0)
}

pub fn read(
    store: &[u8],
    guest: u64,
    vcpu: u64,
    pvr: u32,
    values: &mut [u8],
    marks: &mut [u64],
    id: u16,
    value: &mut [u8],
) -> Answer
    ensures { ◌≡◌ {A = ReadOutcome} (record { answer = result; cache = record { values = values.exit.now; marks = marks.new }; value = value.new }) (read_cache (layout_of store.now) store.now guest vcpu pvr (record { values = values.entry.now; marks = marks.old }) id value.old) }
{
    let Some(values) = values.as_mut_array() else {
        return refusal(Fault::Cache);
    };
    let Some(marks) = marks.as_mut_array() else {
        return refusal(Fault::Cache);
    };
    let offer = offer_of(pvr);
    let cell = readable_cell(offer, id);
    match judge_element(offer, marks, cell, value) {
        Ok(x) => read_value(store, guest, vcpu, values, marks, id, x, value),
        Err(fault) => refusal(fault),
    }
}
