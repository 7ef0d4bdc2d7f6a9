// What a call may do with an element: the use permits it, and its size is the listed one. `values` tests the value; what both mean
// is defined here.
#![tactic(auto)]

mod values;

ghost use Rattle.std.specs.Prelude.{◌≡◌};
ghost use Rattle.elements.specs.Table.{same_scope};
ghost use Rattle.rules.specs.Rules.{between, readable, writable, allows, permits, size_fits};
ghost use Rattle.rules.specs.Private.{of_thread};

use elements::{Access, Entry, Kind, Offer, Scope, is_offered};
pub use values::{good_input, good_output, good_value};

// What a buffer is used for. An effect is 01's word for what the processor wrote during a run.
#[derive(Clone, Copy)]
pub enum Usage {
    GuestGet,
    GuestSet,
    ThreadGet,
    ThreadSet,
    RunInput,
    Effect,
}

// All that judging an element depends on beside its bytes: the use, the capabilities agreed at the call, and the guest's list.
#[derive(Clone, Copy)]
pub struct Context {
    pub usage: Usage,
    pub capabilities: u64,
    pub offer: Offer,
}

fn in_guest(s: Scope) -> bool
    ensures { result ≡ same_scope Scope.Guest s }
{
    matches!(s, Scope::Guest)
}

fn in_thread(s: Scope) -> bool
    ensures { result ≡ same_scope Scope.Thread s }
{
    matches!(s, Scope::Thread)
}

fn may_read(a: Access) -> bool
    ensures { result ≡ readable a }
{
    matches!(a, Access::Read | Access::ReadWrite)
}

fn may_write(a: Access) -> bool
    ensures { result ≡ writable a }
{
    matches!(a, Access::Write | Access::ReadWrite)
}

pub fn within(low: u64, high: u64, n: u64) -> bool
    ensures { result ≡ between low high n }
{
    (low..=high).contains(&n)
}

#[tactic(auto, unfolding(crate::specs::Rules::allows))]
fn allowed(usage: Usage, id: u16, x: Entry) -> bool
    ensures { result ≡ allows usage id x }
{
    let access = x.access;
    let scope = x.scope;
    let n = u64::from(id);
    match usage {
        Usage::GuestGet => in_guest(scope) & may_read(access),
        Usage::GuestSet => in_guest(scope) & may_write(access),
        Usage::ThreadGet => in_thread(scope) & may_read(access),
        Usage::ThreadSet => in_thread(scope) & may_write(access),
        Usage::RunInput => in_thread(scope) & may_write(access) & !within(0x0C00, 0x0C01, n),
        Usage::Effect => in_thread(scope) & !within(0x0C00, 0x0C02, n),
    }
}

#[tactic(auto, unfolding(crate::specs::Rules::permits))]
pub fn permitted(k: Context, id: u16, kind: Kind) -> bool
    ensures { result ≡ permits k id kind }
{
    match kind {
        Kind::Unlisted => false,
        Kind::Nop => true,
        Kind::Listed(x) => allowed(k.usage, id, x) & is_offered(k.offer, id),
    }
}

#[tactic(auto, unfolding(crate::specs::Rules::size_fits))]
pub fn right_size(kind: Kind, size: usize) -> bool
    ensures { result ≡ size_fits kind size }
{
    match kind {
        Kind::Unlisted => false,
        Kind::Nop => true,
        Kind::Listed(x) => size == x.size,
    }
}

// Whether a use is about a vCPU.
pub fn of_thread(usage: Usage) -> bool
    ensures { result ≡ of_thread usage }
{
    !matches!(usage, Usage::GuestGet | Usage::GuestSet)
}
