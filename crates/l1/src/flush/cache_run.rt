// A run. Everything is judged before a byte of the store, of the cache or of a buffer changes: 15 by the list of the PVR told, what would
// be sent by the guest's own.
ghost use Rattle.std.specs.Prelude.{◌≡◌, true, ◌≤◌, length};
ghost use Rattle.answer.specs.Answer.{answer_of};
ghost use Rattle.elements.specs.declared.Offer.TheVariants.{Full};
ghost use Rattle.gsb.specs.Message.{message};
ghost use Rattle.store.specs.Layout.{layout_of};
ghost use Rattle.run.specs.Private.{content_good};
ghost use Rattle.l1.specs.Marks.{good_cache};
ghost use Rattle.l1.specs.Cache.{pending, RunOutcome, run_cache};
ghost use Rattle.l1.specs.Private.{cached_target, Sendable, sent};

use super::input::{bytes_needed, put_input};
use super::lacking::first_lacked;
use super::output::refresh;
use crate::caches::good_marks;
use crate::marks::Marks;
use crate::value::Values;
use answer::{Answer, Bad, Fault, refusal};
use elements::offer_of;
use exits::put_output;
use octets::first_bytes;
use rules::Usage;
use run::{RunTarget, judge_exit, run_target_of};
use state::context_of;
use transfer::apply;

// What would be sent, then 13 and 14. A cache that is good by the guest's list sends nothing that it lacks.
fn judge_sent(
    store: &[u8],
    guest: usize,
    values: &Values,
    marks: &Marks,
    effect: &[u8],
    exit: u64,
) -> Result<(), Fault>
    requires { (length store.now ≡ (layout_of store.now).size) × (1 ≤ guest) × (guest ≤ (layout_of store.now).guests) × (good_cache Full (record { values = values.now; marks = marks.now }) ≡ true) }
    ensures { result ≡ content_good (layout_of store.now) store.now guest (message (pending (record { values = values.entry.now; marks = marks.now }))) effect.now exit }
{
    let k = context_of(store, guest, Usage::RunInput);
    let offer = k.offer;
    if !good_marks(offer, marks) {
        return Err(Fault::Element(Bad::Id, first_lacked(offer, marks)));
    }
    judge_exit(context_of(store, guest, Usage::Effect), effect, exit)
}

// All the tests of a run, of the input that would be written.
fn judge_cached(
    store: &[u8],
    flags: u64,
    guest: u64,
    vcpu: u64,
    values: &Values,
    marks: &Marks,
    input_len: usize,
    output_len: usize,
    effect: &[u8],
    exit: u64,
) -> Result<RunTarget, Fault>
    requires { good_cache Full (record { values = values.now; marks = marks.now }) ≡ true }
    ensures { result ≡ cached_target store.now (record { values = values.entry.now; marks = marks.now }) flags guest vcpu input_len output_len effect.now exit }
{
    let need = bytes_needed(marks);
    let target = run_target_of(
        store,
        flags,
        guest as usize,
        vcpu as usize,
        need,
        input_len,
        output_len,
    )?;
    judge_sent(store, guest as usize, values, marks, effect, exit)?;
    Ok(target)
}

// The changed elements are sent, the vCPU runs as it does without a cache, and the cache keeps what the output holds.
fn send(
    store: &mut [u8],
    base: usize,
    size: usize,
    values: &mut Values,
    marks: &mut Marks,
    input: &mut [u8],
    output: &mut [u8],
    effect: &[u8],
    exit: u64,
) -> u64
    requires { Sendable store.old base size (record { values = values.now; marks = marks.old }) input.old output.old effect.now exit }
    ensures { ◌≡◌ {A = RunOutcome} (record { answer = answer_of (Ok result); store = store.new; cache = record { values = values.exit.now; marks = marks.new }; input = input.new; output = output.new }) (sent store.old base size (record { values = values.entry.now; marks = marks.old }) input.old output.old effect.now exit) }
{
    put_input(values, marks, input);
    apply(store, base, first_bytes(input, size));
    apply(store, base, effect);
    put_output(store, base, exit, output);
    refresh(values, marks, output);
    exit
}

fn try_run(
    store: &mut [u8],
    flags: u64,
    guest: u64,
    vcpu: u64,
    pvr: u32,
    values: &mut Values,
    marks: &mut Marks,
    input: &mut [u8],
    output: &mut [u8],
    effect: &[u8],
    exit_reason: u64,
) -> Result<u64, Fault>
    ensures { ◌≡◌ {A = RunOutcome} (record { answer = answer_of result; store = store.new; cache = record { values = values.exit.now; marks = marks.new }; input = input.new; output = output.new }) (run_cache (layout_of store.old) store.old (record { values = values.entry.now; marks = marks.old }) flags guest vcpu pvr input.old output.old effect.now exit_reason) }
{
    if !good_marks(offer_of(pvr), marks) {
        return Err(Fault::Cache);
    }
    let target = judge_cached(
        store,
        flags,
        guest,
        vcpu,
        values,
        marks,
        input.len(),
        output.len(),
        effect,
        exit_reason,
    )?;
    Ok(send(
        store,
        target.base,
        target.size,
        values,
        marks,
        input,
        output,
        effect,
        exit_reason,
    ))
}

pub fn run(
    store: &mut [u8],
    flags: u64,
    guest: u64,
    vcpu: u64,
    pvr: u32,
    values: &mut [u8],
    marks: &mut [u64],
    input: &mut [u8],
    output: &mut [u8],
    effect: &[u8],
    exit_reason: u64,
) -> Answer
    ensures { ◌≡◌ {A = RunOutcome} (record { answer = result; store = store.new; cache = record { values = values.exit.now; marks = marks.new }; input = input.new; output = output.new }) (run_cache (layout_of store.old) store.old (record { values = values.entry.now; marks = marks.old }) flags guest vcpu pvr input.old output.old effect.now exit_reason) }
{
    // The marks first: a run takes fewer instructions so.
    let Some(marks) = marks.as_mut_array() else {
        return refusal(Fault::Cache);
    };
    let Some(values) = values.as_mut_array() else {
        return refusal(Fault::Cache);
    };
    Answer::from(try_run(
        store,
        flags,
        guest,
        vcpu,
        pvr,
        values,
        marks,
        input,
        output,
        effect,
        exit_reason,
    ))
}
