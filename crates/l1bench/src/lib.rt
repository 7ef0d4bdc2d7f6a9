// The L1 cache's operations for the C bench, which measures them against a cache in C: each answer as the three numbers of the
// paper, nothing else. The library has none of this: 01 gives C nothing of the cache. bench/cache.h declares them.
#![tactic(auto)]

ghost use Rattle.std.specs.Prelude.{◌≡◌};
ghost use Rattle.answer.specs.declared.Call.{Call};
ghost use Rattle.store.specs.Layout.{layout_of};
ghost use Rattle.l1.specs.Cache.{write_cache, read_cache, run_cache};
ghost use Rattle.l1bench.specs.Entries.{Written, writes, Read, reads, Ran, runs};

use answer::{Call, Registers, registers_of};

#[unsafe(no_mangle)]
pub extern "C" fn adk_cache_write(
    values: &mut [u8],
    marks: &mut [u64],
    pvr: u32,
    id: u16,
    value: &[u8],
) -> Registers
    ensures { ◌≡◌ {A = Written} (record { registers = result; cache = record { values = values.exit.now; marks = marks.new } }) (writes (write_cache pvr (record { values = values.entry.now; marks = marks.old }) id value.now)) }
{
    registers_of(Call::CacheWrite, l1::write(values, marks, pvr, id, value))
}

#[unsafe(no_mangle)]
pub extern "C" fn adk_cache_read(
    store: &[u8],
    guest: u64,
    vcpu: u64,
    pvr: u32,
    values: &mut [u8],
    marks: &mut [u64],
    id: u16,
    value: &mut [u8],
) -> Registers
    ensures { ◌≡◌ {A = Read} (record { registers = result; cache = record { values = values.exit.now; marks = marks.new }; value = value.new }) (reads (read_cache (layout_of store.now) store.now guest vcpu pvr (record { values = values.entry.now; marks = marks.old }) id value.old)) }
{
    registers_of(
        Call::CacheRead,
        l1::read(store, guest, vcpu, pvr, values, marks, id, value),
    )
}

#[unsafe(no_mangle)]
pub extern "C" fn adk_cache_run(
    store: &mut [u8],
    flags: u64,
    guest: u64,
    vcpu: u64,
    pvr: u32,
    values: &mut [u8],
    marks: &mut [u64],
    input: &mut [u8],
    output: &mut [u8],
    effect: &[u8],
    exit_reason: u64,
) -> Registers
    ensures { ◌≡◌ {A = Ran} (record { registers = result; store = store.new; cache = record { values = values.exit.now; marks = marks.new }; input = input.new; output = output.new }) (runs (run_cache (layout_of store.old) store.old (record { values = values.entry.now; marks = marks.old }) flags guest vcpu pvr input.old output.old effect.now exit_reason)) }
{
    registers_of(
        Call::CacheRun,
        l1::run(
            store,
            flags,
            guest,
            vcpu,
            pvr,
            values,
            marks,
            input,
            output,
            effect,
            exit_reason,
        ),
    )
}
