// The entries that the C bench calls: each call's answer as the three numbers of the paper, nothing else.
// include/adderknot.h declares them.
#![tactic(auto)]

ghost use Rattle.std.specs.Prelude.{◌≡◌};
ghost use Rattle.answer.specs.declared.Call.{Call};
ghost use Rattle.answer.specs.Answer.{told};
ghost use Rattle.store.specs.Layout.{layout_of};
ghost use Rattle.gsb.specs.Lookup.{looked_up};
ghost use Rattle.gsb.specs.Join.{join_into};
ghost use Rattle.state.specs.State.{get_elements, get_state, set_elements, set_state};
ghost use Rattle.state.specs.HandOver.{take_vcpu, give_vcpu};
ghost use Rattle.run.specs.Run.{run_vcpu};
ghost use Rattle.guests.specs.Guests.{create_guest, create_vcpu, delete_guest};
ghost use Rattle.l0.specs.Calls.{fresh_store, get_capabilities, set_capabilities, guest_clock, convert};
ghost use Rattle.l0.specs.Numbered.{called};
ghost use Rattle.records.specs.Write.{write_record};
ghost use Rattle.judging.specs.Judging.{judge_told};
ghost use Rattle.tally.specs.Tally.{Noted, notes, tallied};
ghost use Rattle.adderknot.specs.Entries.{Left, leaves, Filled, fills, tells, Made, makes, found_at, Wrote, writes, writes_record};

use admission::BIT_1;
use answer::{Answer, Call, Fault, Registers, refusal, registers_of};
use l0::Kind;
use tally::Summary;

#[unsafe(no_mangle)]
pub extern "C" fn adk_fresh_store(store: &mut [u8]) -> Registers
    ensures { ◌≡◌ {A = Left} (record { registers = result; store = store.new }) (leaves Call.FreshStore (fresh_store (layout_of store.old) store.old)) }
{
    registers_of(Call::FreshStore, l0::fresh_store(store))
}

#[unsafe(no_mangle)]
pub extern "C" fn adk_get_capabilities(store: &[u8], flags: u64) -> Registers
    ensures { result ≡ tells Call.GetCapabilities (get_capabilities (layout_of store.now) store.now flags) }
{
    registers_of(Call::GetCapabilities, l0::get_capabilities(store, flags))
}

#[unsafe(no_mangle)]
pub extern "C" fn adk_set_capabilities(store: &mut [u8], flags: u64, bitmap: u64) -> Registers
    ensures { ◌≡◌ {A = Left} (record { registers = result; store = store.new }) (leaves Call.SetCapabilities (set_capabilities (layout_of store.old) store.old flags bitmap)) }
{
    registers_of(
        Call::SetCapabilities,
        l0::set_capabilities(store, flags, bitmap),
    )
}

#[unsafe(no_mangle)]
pub extern "C" fn adk_create_guest(store: &mut [u8], flags: u64, token: u64) -> Registers
    ensures { ◌≡◌ {A = Left} (record { registers = result; store = store.new }) (leaves Call.CreateGuest (create_guest (layout_of store.old) store.old flags token)) }
{
    registers_of(Call::CreateGuest, guests::create_guest(store, flags, token))
}

#[unsafe(no_mangle)]
pub extern "C" fn adk_create_vcpu(store: &mut [u8], flags: u64, guest: u64, vcpu: u64) -> Registers
    ensures { ◌≡◌ {A = Left} (record { registers = result; store = store.new }) (leaves Call.CreateVcpu (create_vcpu (layout_of store.old) store.old flags guest vcpu)) }
{
    registers_of(
        Call::CreateVcpu,
        guests::create_vcpu(store, flags, guest, vcpu),
    )
}

// The flag of get and set state by which a vCPU is handed over.
const HAND_OVER: u64 = BIT_1;

// Get and set state in four functions that an entry and `adk_call` call: one with a single caller would be compiled into it,
// and the elements would take the stack of a hand-over too.
fn take_vcpu(store: &mut [u8], guest: u64, vcpu: u64, buffer: &mut [u8]) -> Registers
    ensures { ◌≡◌ {A = Filled} (record { registers = result; store = store.new; buffer = buffer.new }) (fills Call.GetState (take_vcpu (layout_of store.old) store.old guest vcpu buffer.old)) }
{
    registers_of(Call::GetState, state::take_vcpu(store, guest, vcpu, buffer))
}

fn get_elements(store: &[u8], flags: u64, guest: u64, vcpu: u64, buffer: &mut [u8]) -> Registers
    ensures { ◌≡◌ {A = Filled} (record { registers = result; store = store.now; buffer = buffer.new }) (fills Call.GetState (get_elements (layout_of store.now) store.now flags guest vcpu buffer.old)) }
{
    registers_of(
        Call::GetState,
        state::get_elements(store, flags, guest, vcpu, buffer),
    )
}

fn give_vcpu(store: &mut [u8], guest: u64, vcpu: u64, buffer: &[u8]) -> Registers
    ensures { ◌≡◌ {A = Left} (record { registers = result; store = store.new }) (leaves Call.SetState (give_vcpu (layout_of store.old) store.old guest vcpu buffer.now)) }
{
    registers_of(Call::SetState, state::give_vcpu(store, guest, vcpu, buffer))
}

fn set_elements(store: &mut [u8], flags: u64, guest: u64, vcpu: u64, buffer: &[u8]) -> Registers
    ensures { ◌≡◌ {A = Left} (record { registers = result; store = store.new }) (leaves Call.SetState (set_elements (layout_of store.old) store.old flags guest vcpu buffer.now)) }
{
    registers_of(
        Call::SetState,
        state::set_elements(store, flags, guest, vcpu, buffer),
    )
}

#[unsafe(no_mangle)]
pub extern "C" fn adk_get_state(
    store: &mut [u8],
    flags: u64,
    guest: u64,
    vcpu: u64,
    buffer: &mut [u8],
) -> Registers
    ensures { ◌≡◌ {A = Filled} (record { registers = result; store = store.new; buffer = buffer.new }) (fills Call.GetState (get_state (layout_of store.old) store.old flags guest vcpu buffer.old)) }
{
    if flags == HAND_OVER {
        return take_vcpu(store, guest, vcpu, buffer);
    }
    get_elements(store, flags, guest, vcpu, buffer)
}

#[unsafe(no_mangle)]
pub extern "C" fn adk_set_state(
    store: &mut [u8],
    flags: u64,
    guest: u64,
    vcpu: u64,
    buffer: &[u8],
) -> Registers
    ensures { ◌≡◌ {A = Left} (record { registers = result; store = store.new }) (leaves Call.SetState (set_state (layout_of store.old) store.old flags guest vcpu buffer.now)) }
{
    if flags == HAND_OVER {
        return give_vcpu(store, guest, vcpu, buffer);
    }
    set_elements(store, flags, guest, vcpu, buffer)
}

#[unsafe(no_mangle)]
pub extern "C" fn adk_run_vcpu(
    store: &mut [u8],
    flags: u64,
    guest: u64,
    vcpu: u64,
    input: &[u8],
    output: &mut [u8],
    effect: &[u8],
    exit_reason: u64,
) -> Registers
    ensures { ◌≡◌ {A = Filled} (record { registers = result; store = store.new; buffer = output.new }) (fills Call.RunVcpu (run_vcpu (layout_of store.old) store.old flags guest vcpu input.now output.old effect.now exit_reason)) }
{
    registers_of(
        Call::RunVcpu,
        run::run_vcpu(
            store,
            flags,
            guest,
            vcpu,
            input,
            output,
            effect,
            exit_reason,
        ),
    )
}

#[unsafe(no_mangle)]
pub extern "C" fn adk_delete_guest(store: &mut [u8], flags: u64, guest: u64) -> Registers
    ensures { ◌≡◌ {A = Left} (record { registers = result; store = store.new }) (leaves Call.DeleteGuest (delete_guest (layout_of store.old) store.old flags guest)) }
{
    registers_of(Call::DeleteGuest, guests::delete_guest(store, flags, guest))
}

#[unsafe(no_mangle)]
pub extern "C" fn adk_guest_clock(store: &[u8], guest: u64, timebase: u64) -> Registers
    ensures { result ≡ tells Call.GuestClock (guest_clock (layout_of store.now) store.now guest timebase) }
{
    registers_of(Call::GuestClock, l0::guest_clock(store, guest, timebase))
}

#[unsafe(no_mangle)]
pub extern "C" fn adk_call(
    store: &mut [u8],
    kind: u64,
    flags: u64,
    guest: u64,
    number: u64,
    exit_reason: u64,
    data: &mut [u8],
    output: &mut [u8],
    effect: &[u8],
) -> Registers
    ensures { ◌≡◌ {A = Made} (record { registers = result; store = store.new; «data» = «data».new; output = output.new }) (makes kind (called (layout_of store.old) store.old (record { kind = kind; flags = flags; guest = guest; number = number; exit = exit_reason; «data» = «data».old; effect = effect.now }) output.old)) }
{
    match Kind::from_number(kind) {
        Some(Kind::GetCapabilities) => adk_get_capabilities(store, flags),
        Some(Kind::SetCapabilities) => adk_set_capabilities(store, flags, number),
        Some(Kind::CreateGuest) => adk_create_guest(store, flags, number),
        Some(Kind::CreateVcpu) => adk_create_vcpu(store, flags, guest, number),
        Some(Kind::GetState) => {
            if flags == HAND_OVER {
                return take_vcpu(store, guest, number, data);
            }
            get_elements(store, flags, guest, number, data)
        }
        Some(Kind::SetState) => {
            if flags == HAND_OVER {
                return give_vcpu(store, guest, number, data);
            }
            set_elements(store, flags, guest, number, data)
        }
        Some(Kind::RunVcpu) => adk_run_vcpu(
            store,
            flags,
            guest,
            number,
            data,
            output,
            effect,
            exit_reason,
        ),
        Some(Kind::DeleteGuest) => adk_delete_guest(store, flags, guest),
        None => registers_of(Call::FreshStore, refusal(Fault::Record(0))),
    }
}

#[unsafe(no_mangle)]
pub extern "C" fn adk_tally(
    records: &mut [Summary],
    store: &mut [u8],
    kind: u64,
    flags: u64,
    guest: u64,
    number: u64,
    exit_reason: u64,
    data: &mut [u8],
    output: &mut [u8],
    effect: &[u8],
) -> Registers
    ensures { ◌≡◌ {A = Noted} (record { registers = result; store = store.new; «data» = «data».new; output = output.new; records = records.new }) (notes kind (tallied (layout_of store.old) records.old store.old (record { kind = kind; flags = flags; guest = guest; number = number; exit = exit_reason; «data» = «data».old; effect = effect.now }) output.old)) }
{
    tally::tally(
        records,
        store,
        kind,
        flags,
        guest,
        number,
        exit_reason,
        data,
        output,
        effect,
    )
}

// Where the value part lies in the caller's buffer: an exported function can't return a reference.
#[repr(C)]
#[derive(Clone, Copy)]
pub struct Found {
    pub r3: u64,
    pub r4: u64,
    pub r5: u64,
    pub at: u64,
    pub len: u64,
}

#[unsafe(no_mangle)]
pub extern "C" fn adk_convert(small: &[u8], large: &mut [u8]) -> Registers
    ensures { ◌≡◌ {A = Left} (record { registers = result; store = large.new }) (leaves Call.Convert (convert small.now large.old)) }
{
    registers_of(Call::Convert, l0::convert(small, large))
}

#[unsafe(no_mangle)]
pub extern "C" fn adk_lookup(buffer: &[u8], id: u16) -> Found
    ensures { result ≡ found_at (looked_up buffer.now id) }
{
    let looked = gsb::lookup(buffer, id);
    let told = registers_of(Call::Lookup, Answer::from(looked.map(|_| 0)));
    let found = looked.unwrap_or(gsb::Found { at: 0, len: 0 });
    Found {
        r3: told.r3,
        r4: told.r4,
        r5: told.r5,
        at: found.at as u64,
        len: found.len as u64,
    }
}

#[unsafe(no_mangle)]
pub extern "C" fn adk_join(first: &[u8], second: &[u8], res: &mut [u8]) -> Registers
    ensures { ◌≡◌ {A = Wrote} (record { registers = result; result = res.new }) (writes (join_into first.now second.now res.old)) }
{
    registers_of(Call::Join, gsb::join(first, second, res))
}

#[unsafe(no_mangle)]
pub extern "C" fn adk_write_record(
    bytes: &mut [u8],
    kind: u64,
    flags: u64,
    guest: u64,
    number: u64,
    exit_reason: u64,
    data: &[u8],
    effect: &[u8],
) -> Registers
    ensures { ◌≡◌ {A = Wrote} (record { registers = result; result = bytes.new }) (writes_record (write_record bytes.old (record { kind = kind; flags = flags; guest = guest; number = number; exit = exit_reason; «data» = «data».now; effect = effect.now }))) }
{
    registers_of(
        Call::WriteRecord,
        records::write_record(bytes, kind, flags, guest, number, exit_reason, data, effect),
    )
}

#[unsafe(no_mangle)]
pub extern "C" fn adk_judge_output(
    store: &[u8],
    guest: u64,
    vcpu: u64,
    exit_reason: u64,
    buffer: &[u8],
) -> Registers
    ensures { result ≡ judge_told (layout_of store.now) store.now guest vcpu exit_reason buffer.now }
{
    registers_of(
        Call::JudgeOutput,
        judging::judge_output(store, guest, vcpu, exit_reason, buffer),
    )
}
