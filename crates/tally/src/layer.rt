// The layer: a call by its number, then the records.
ghost use Rattle.std.specs.Prelude.{◌≡◌, length};
ghost use Rattle.store.specs.Layout.{layout_of};
ghost use Rattle.tally.specs.Tally.{Noted, r3_of, told_by, notes, tallied};
ghost use Rattle.tally.specs.Private.{Serves, noted_at};

use super::changes::change_for;
use super::counters::after;
use super::slots::{held_bytes, touched};
use super::{Change, Served, Summary};
use answer::{Answer, Fault, Registers, refusal, registers_of};
use l0::{call, kind_name};
use octets::first_bytes;
use store::{Layout, layout_of};

fn told_by(kind: u64, a: Answer) -> Registers
    ensures { result ≡ told_by kind a }
{
    registers_of(kind_name(kind), a)
}

fn r3_of(kind: u64, a: Answer) -> u64
    ensures { result ≡ r3_of kind a }
{
    told_by(kind, a).r3
}

// With as many records as slots. What is known only before the call is taken first.
fn serve_with(
    store: &mut [u8],
    l: Layout,
    kind: u64,
    flags: u64,
    guest: u64,
    number: u64,
    exit_reason: u64,
    data: &mut [u8],
    output: &mut [u8],
    effect: &[u8],
) -> Served
    requires { l ≡ layout_of store.old }
    ensures { Serves l l.slots store.old (record { kind = kind; flags = flags; guest = guest; number = number; exit = exit_reason; «data» = «data».old; effect = effect.now }) output.old result store.new «data».new output.new }
{
    let slots = touched(store, l, kind, flags, guest, number);
    let held = held_bytes(store, l, kind, slots.first, data.len());
    let answer = call(
        store,
        kind,
        flags,
        guest,
        number,
        exit_reason,
        data,
        output,
        effect,
    );
    let change = change_for(
        kind,
        flags,
        r3_of(kind, answer),
        exit_reason,
        first_bytes(data, held),
    );
    Served {
        answer,
        first: slots.first,
        slots: slots.slots,
        change,
    }
}

// The call, if `count` is the number of records that the store wants.
fn serve(
    count: usize,
    store: &mut [u8],
    kind: u64,
    flags: u64,
    guest: u64,
    number: u64,
    exit_reason: u64,
    data: &mut [u8],
    output: &mut [u8],
    effect: &[u8],
) -> Served
    ensures { Serves (layout_of store.old) count store.old (record { kind = kind; flags = flags; guest = guest; number = number; exit = exit_reason; «data» = «data».old; effect = effect.now }) output.old result store.new «data».new output.new }
{
    let l = layout_of(store);
    if count != l.slots {
        return Served {
            answer: refusal(Fault::Records),
            first: 0,
            slots: 0,
            change: Change::Nothing,
        };
    }
    serve_with(
        store,
        l,
        kind,
        flags,
        guest,
        number,
        exit_reason,
        data,
        output,
        effect,
    )
}

// The one function that writes records: those of the slots that the call touches. It stops behind the last of them.
fn update(records: &mut [Summary], served: Served)
    ensures { records.new ≡ noted_at served.first served.slots served.change records.old }
{
    let mut left = served.slots;
    for i in served.first..records.len() {
        if left == 0 {
            return;
        }
        records[i] = after(records[i], left, served.change);
        left /= 2;
    }
}

// The layer itself. What it takes beside the records is that of a call by its number.
pub fn tally(
    records: &mut [Summary],
    store: &mut [u8],
    kind: u64,
    flags: u64,
    guest: u64,
    number: u64,
    exit_reason: u64,
    data: &mut [u8],
    output: &mut [u8],
    effect: &[u8],
) -> Registers
    ensures { ◌≡◌ {A = Noted} (record { registers = result; store = store.new; «data» = «data».new; output = output.new; records = records.new }) (notes kind (tallied (layout_of store.old) records.old store.old (record { kind = kind; flags = flags; guest = guest; number = number; exit = exit_reason; «data» = «data».old; effect = effect.now }) output.old)) }
{
    let served = serve(
        records.len(),
        store,
        kind,
        flags,
        guest,
        number,
        exit_reason,
        data,
        output,
        effect,
    );
    update(records, served);
    told_by(kind, served.answer)
}
