// Run vCPU: the input and the effect applied, and the output written, once every test of `run` is passed.
ghost use Rattle.std.specs.Prelude.{◌≡◌, true, ◌+◌, ◌≤◌, length};
ghost use Rattle.answer.specs.Answer.{answer_of};
ghost use Rattle.exits.specs.Exits.{known};
ghost use Rattle.transfer.specs.Transfer.{AllReady};
ghost use Rattle.store.specs.Layout.{layout_of, slot_bytes};
ghost use Rattle.admission.specs.Refusals.{Outcome};
ghost use Rattle.run.specs.Run.{ran, run_vcpu};

use super::judge_run;
use answer::{Answer, Fault};
use exits::put_output;
use octets::first_bytes;
use transfer::apply;

// The input is applied, then the effect; then the output is written, with the values as they then are.
fn run_at(
    store: &mut [u8],
    base: usize,
    input: &[u8],
    output: &mut [u8],
    effect: &[u8],
    exit: u64,
) -> u64
    requires { AllReady base input.now (length store.old) × AllReady base effect.now (length store.old) × (known exit ≡ true) × (base + slot_bytes ≤ length store.old) × (124 ≤ length output.old) }
    ensures { ◌≡◌ {A = Outcome} (record { answer = answer_of (Ok result); store = store.new; buffer = output.new }) (ran base store.old input.now output.old effect.now exit) }
{
    apply(store, base, input);
    apply(store, base, effect);
    put_output(store, base, exit, output);
    exit
}

fn try_run(
    store: &mut [u8],
    flags: u64,
    guest: u64,
    vcpu: u64,
    input: &[u8],
    output: &mut [u8],
    effect: &[u8],
    exit_reason: u64,
) -> Result<u64, Fault>
    ensures { ◌≡◌ {A = Outcome} (record { answer = answer_of result; store = store.new; buffer = output.new }) (run_vcpu (layout_of store.old) store.old flags guest vcpu input.now output.old effect.now exit_reason) }
{
    let target = judge_run(
        store,
        flags,
        guest as usize,
        vcpu as usize,
        input,
        output.len(),
        effect,
        exit_reason,
    )?;
    let part = first_bytes(input, target.size);
    Ok(run_at(store, target.base, part, output, effect, exit_reason))
}

// H_GUEST_RUN_VCPU.
pub fn run_vcpu(
    store: &mut [u8],
    flags: u64,
    guest: u64,
    vcpu: u64,
    input: &[u8],
    output: &mut [u8],
    effect: &[u8],
    exit_reason: u64,
) -> Answer
    ensures { ◌≡◌ {A = Outcome} (record { answer = result; store = store.new; buffer = output.new }) (run_vcpu (layout_of store.old) store.old flags guest vcpu input.now output.old effect.now exit_reason) }
{
    Answer::from(try_run(
        store,
        flags,
        guest,
        vcpu,
        input,
        output,
        effect,
        exit_reason,
    ))
}
