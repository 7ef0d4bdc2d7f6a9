// A write of one element: its value is kept, valid and changed, until the next run sends it.
ghost use Rattle.std.specs.Prelude.{◌≡◌};
ghost use Rattle.l1.specs.Cache.{WriteOutcome, write_cache};

use super::named::input_cell;
use super::value::{change_value, judge_element};
use answer::{Answer, Fault, refusal, success};
use elements::offer_of;

pub fn write(values: &mut [u8], marks: &mut [u64], pvr: u32, id: u16, value: &[u8]) -> Answer
    ensures { ◌≡◌ {A = WriteOutcome} (record { answer = result; cache = record { values = values.exit.now; marks = marks.new } }) (write_cache pvr (record { values = values.entry.now; marks = marks.old }) id value.now) }
{
    let Some(values) = values.as_mut_array() else {
        return refusal(Fault::Cache);
    };
    let Some(marks) = marks.as_mut_array() else {
        return refusal(Fault::Cache);
    };
    let offer = offer_of(pvr);
    let cell = input_cell(offer, id);
    match judge_element(offer, marks, cell, value) {
        Ok(x) => {
            change_value(values, marks, x, value);
            success(0)
        }
        Err(fault) => refusal(fault),
    }
}
