// One record, by value.
ghost use Rattle.std.specs.Prelude.{◌≡◌};
ghost use Rattle.tally.specs.Tally.{plus, changed};
ghost use Rattle.tally.specs.Private.{after};

use super::{Change, Summary};

// A counter stays at its greatest value.
fn plus(n: u32, k: u64) -> u32
    ensures { result ≡ plus n k }
{
    let room = u32::MAX - n;
    if u64::from(room) < k {
        return u32::MAX;
    }
    n + k as u32
}

fn changed(t: Summary, change: Change) -> Summary
    ensures { result ≡ changed change t }
{
    match change {
        Change::Nothing => t,
        Change::Renewed => Summary {
            runs: 0,
            elements: 0,
            refusals: 0,
            exit_reason: 4095,
        },
        Change::Set(n) => Summary {
            elements: plus(t.elements, n),
            ..t
        },
        Change::Ran(n, exit_reason) => Summary {
            runs: plus(t.runs, 1),
            elements: plus(t.elements, n),
            exit_reason,
            ..t
        },
        Change::Refused => Summary {
            refusals: plus(t.refusals, 1),
            ..t
        },
    }
}

// Changed if its slot, the least significant bit of `left`, is touched.
pub fn after(t: Summary, left: u64, change: Change) -> Summary
    ensures { result ≡ after left change t }
{
    if left % 2 == 1 {
        return changed(t, change);
    }
    t
}
