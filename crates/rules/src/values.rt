// Value rules: whether the value of an element that is set is good, and whether a run buffer has a good size.
ghost use Rattle.std.specs.Prelude.{◌≡◌, true, ◌+◌, ◌≤◌, length};
ghost use Rattle.elements.specs.Table.{kind_of};
ghost use Rattle.rules.specs.Rules.{size_fits, good_input, good_output, good_pvr, rule_of, is_setting, good_value};

use super::{Context, Usage, within};
use octets::{get32, get64};

// The logical PVRs that a guest may have, and the elements whose values have a rule.
const POWER9: u32 = 0x0F00_0005;

const POWER10: u32 = 0x0F00_0006;

const LOGICAL_PVR: u16 = 0x0003;

const RUN_INPUT: u16 = 0x0C00;

const RUN_OUTPUT: u16 = 0x0C01;

// The sizes of run buffers.
const MIN_INPUT: u64 = 4;

const MIN_OUTPUT: u64 = 124;

const MAX_BUFFER: u64 = 65536;

pub fn good_input(n: u64) -> bool
    ensures { result ≡ good_input n }
{
    within(MIN_INPUT, MAX_BUFFER, n)
}

pub fn good_output(n: u64) -> bool
    ensures { result ≡ good_output n }
{
    within(MIN_OUTPUT, MAX_BUFFER, n)
}

#[tactic(auto, unfolding(crate::specs::Rules::good_pvr))]
fn good_pvr(capabilities: u64, v: u32) -> bool
    ensures { result ≡ good_pvr capabilities v }
{
    match v {
        POWER9 => (capabilities >> 62) % 2 == 1,
        POWER10 => (capabilities >> 61) % 2 == 1,
        _ => false,
    }
}

fn setting(usage: Usage) -> bool
    ensures { result ≡ is_setting usage }
{
    !matches!(usage, Usage::GuestGet | Usage::ThreadGet)
}

fn meets_rule(capabilities: u64, id: u16, size: usize, b: &[u8], at: usize) -> bool
    requires { (size_fits (kind_of id) size ≡ true) × (at + size ≤ length b.now) }
    ensures { result ≡ rule_of capabilities id b.now at }
{
    match id {
        LOGICAL_PVR => good_pvr(capabilities, get32(b, at)),
        RUN_INPUT => good_input(get64(b, at + 8)),
        RUN_OUTPUT => good_output(get64(b, at + 8)),
        _ => true,
    }
}

// The registers come first: the three IDs with a rule are below them.
pub fn good_value(k: Context, id: u16, size: usize, b: &[u8], at: usize) -> bool
    requires { (size_fits (kind_of id) size ≡ true) × (at + size ≤ length b.now) }
    ensures { result ≡ good_value k id b.now at }
{
    if 0x1000 <= id {
        return true;
    }
    if !setting(k.usage) {
        return true;
    }
    meets_rule(k.capabilities, id, size, b, at)
}
