// What a call makes of the records that it touches, from its answer's R3.
ghost use Rattle.std.specs.Prelude.{◌≡◌, ◌%◌, ◌^◌};
ghost use Rattle.tally.specs.declared.Change.TheVariants.{Nothing, Renewed};
ghost use Rattle.tally.specs.Tally.{refused_by, on_success};
ghost use Rattle.tally.specs.Private.{set_in, get_change, set_change, run_change, change_for};

use super::Change;
use super::counting::elements_set;
use admission::{BIT_1, is_wide};
use l0::Kind;

fn refused_by(r3: u64) -> Change
    ensures { result ≡ refused_by r3 }
{
    if r3 < 6 {
        return Change::Nothing;
    }
    if 8 < r3 {
        return Change::Nothing;
    }
    Change::Refused
}

// Of creating and of dropping a vCPU.
fn renewal(r3: u64) -> Change
    ensures { result ≡ on_success r3 Renewed Nothing }
{
    if r3 == 0 {
        return Change::Renewed;
    }
    Change::Nothing
}

fn get_change(flags: u64, r3: u64) -> Change
    ensures { result ≡ get_change flags r3 }
{
    if is_wide(flags) {
        return Change::Nothing;
    }
    refused_by(r3)
}

fn set_change(flags: u64, r3: u64, buffer: &[u8]) -> Change
    ensures { result ≡ set_change flags r3 (set_in buffer.now) }
{
    if is_wide(flags) {
        return Change::Nothing;
    }
    if r3 != 0 {
        return refused_by(r3);
    }
    if flags == BIT_1 {
        return Change::Nothing;
    }
    Change::Set(elements_set(buffer))
}

fn run_change(r3: u64, exit_reason: u64, input: &[u8]) -> Change
    ensures { result ≡ run_change r3 (set_in input.now) (exit_reason % 2 ^ 32) }
{
    if r3 != 0 {
        return refused_by(r3);
    }
    Change::Ran(elements_set(input), (exit_reason % 0x1_0000_0000) as u32)
}

// `bytes` are those of the data that hold elements.
// The laws of the two kinds that share an arm are named here, so that an arm of its own is judged by what it says
// (must-fail/record_kept_over_delete.edit).
#[tactic(auto, using(crate::proofs::ByKind::change_create, crate::proofs::ByKind::change_delete))]
pub fn change_for(kind: u64, flags: u64, r3: u64, exit_reason: u64, bytes: &[u8]) -> Change
    ensures { result ≡ change_for kind flags r3 exit_reason (set_in bytes.now) }
{
    match Kind::from_number(kind) {
        Some(Kind::CreateVcpu | Kind::DeleteGuest) => renewal(r3),
        Some(Kind::GetState) => get_change(flags, r3),
        Some(Kind::SetState) => set_change(flags, r3, bytes),
        Some(Kind::RunVcpu) => run_change(r3, exit_reason, bytes),
        Some(Kind::GetCapabilities | Kind::SetCapabilities | Kind::CreateGuest) | None =>
            Change::Nothing,
    }
}
