// A call by its number, as a call record of request L9 names it.
ghost use Rattle.std.specs.Prelude.{◌≡◌};
ghost use Rattle.store.specs.Layout.{layout_of};
ghost use Rattle.l0.specs.Numbered.{Called, called, kind_name, name_of};
ghost use Rattle.l0.specs.Kinds.{kind_of};

use crate::capabilities::{get_capabilities, set_capabilities};
use answer::{Answer, Call, Fault, refusal};
use guests::{create_guest, create_vcpu, delete_guest};
use run::run_vcpu;
use state::{get_state, set_state};

// The calls that have a number.
#[derive(Clone, Copy)]
pub enum Kind {
    GetCapabilities,
    SetCapabilities,
    CreateGuest,
    CreateVcpu,
    GetState,
    SetState,
    RunVcpu,
    DeleteGuest,
}

impl Kind {
    pub fn from_number(number: u64) -> Option<Kind>
        ensures { result ≡ kind_of number }
    {
        match number {
            1 => Some(Kind::GetCapabilities),
            2 => Some(Kind::SetCapabilities),
            3 => Some(Kind::CreateGuest),
            4 => Some(Kind::CreateVcpu),
            5 => Some(Kind::GetState),
            6 => Some(Kind::SetState),
            7 => Some(Kind::RunVcpu),
            8 => Some(Kind::DeleteGuest),
            _ => None,
        }
    }

    fn name(self) -> Call
        ensures { result ≡ name_of self }
    {
        match self {
            Kind::GetCapabilities => Call::GetCapabilities,
            Kind::SetCapabilities => Call::SetCapabilities,
            Kind::CreateGuest => Call::CreateGuest,
            Kind::CreateVcpu => Call::CreateVcpu,
            Kind::GetState => Call::GetState,
            Kind::SetState => Call::SetState,
            Kind::RunVcpu => Call::RunVcpu,
            Kind::DeleteGuest => Call::DeleteGuest,
        }
    }
}

// The third number is the vCPU, the token or the bitmap. What a kind has no use for is ignored.
pub fn call(
    store: &mut [u8],
    kind: u64,
    flags: u64,
    guest: u64,
    number: u64,
    exit_reason: u64,
    data: &mut [u8],
    output: &mut [u8],
    effect: &[u8],
) -> Answer
    ensures { ◌≡◌ {A = Called} (record { answer = result; store = store.new; «data» = «data».new; output = output.new }) (called (layout_of store.old) store.old (record { kind = kind; flags = flags; guest = guest; number = number; exit = exit_reason; «data» = «data».old; effect = effect.now }) output.old) }
{
    match Kind::from_number(kind) {
        Some(Kind::GetCapabilities) => get_capabilities(store, flags),
        Some(Kind::SetCapabilities) => set_capabilities(store, flags, number),
        Some(Kind::CreateGuest) => create_guest(store, flags, number),
        Some(Kind::CreateVcpu) => create_vcpu(store, flags, guest, number),
        Some(Kind::GetState) => get_state(store, flags, guest, number, data),
        Some(Kind::SetState) => set_state(store, flags, guest, number, data),
        Some(Kind::RunVcpu) => run_vcpu(
            store,
            flags,
            guest,
            number,
            data,
            output,
            effect,
            exit_reason,
        ),
        Some(Kind::DeleteGuest) => delete_guest(store, flags, guest),
        None => refusal(Fault::Record(0)),
    }
}

// By which name a kind's R4 and R5 are told: a run's place is not told as a set's.
pub fn kind_name(kind: u64) -> Call
    ensures { result ≡ kind_name kind }
{
    match Kind::from_number(kind) {
        Some(kind) => kind.name(),
        None => Call::FreshStore,
    }
}
