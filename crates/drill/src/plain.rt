// The plain L1, of vCPU 0 of guest 1: a write or a read is a set or a get state with a buffer of one element, a run has an input of
// zeros. Each operation adds what it saw to the digest.
use super::digest::{mix_bytes, mix_registers, mix_run};
use super::draw::{
    OPERATIONS, Operation, SEED, a_byte, an_element, an_exit, an_id, an_operation, next,
};
use super::start::start;
use answer::{Call, Registers, registers_of};

// Get state and set state with bit 1.
const HAND_OVER: u64 = 0x4000_0000_0000_0000;

// The NOP and the two run buffers, which no L1 writes or reads.
fn is_special(id: u16) -> bool {
    matches!(id, 0 | 0x0C00 | 0x0C01)
}

const SIX: Registers = Registers {
    r3: 6,
    r4: 0,
    r5: 0,
};

// What a cache write or read tells: R5 0 where set or get state has 4.
fn as_cached(told: Registers) -> Registers {
    match told {
        Registers {
            r3: 6..=8,
            r5: 4,
            ..
        } => Registers { r5: 0, ..told },
        _ => told,
    }
}

fn set(store: &mut [u8], guest: u64, x: u64) -> Registers {
    let e = an_element(x);
    let b = e.bytes;
    let end = e.end;
    registers_of(
        Call::SetState,
        state::set_state(store, 0, guest, 0, &b[..end]),
    )
}

fn write(store: &mut [u8], x: u64, digest: u64) -> u64 {
    if is_special(an_id(x)) {
        return mix_registers(digest, SIX);
    }
    mix_registers(digest, as_cached(set(store, 1, x)))
}

fn get(store: &mut [u8], id: u16, buffer: &mut [u8]) -> Registers {
    if is_special(id) {
        return SIX;
    }
    as_cached(registers_of(Call::GetState, state::get_state(store, 0, 1, 0, buffer)))
}

fn read(store: &mut [u8], x: u64, digest: u64) -> u64 {
    let e = an_element(x);
    let mut bytes = e.bytes;
    let end = e.end;
    let b: &mut [u8] = &mut bytes;
    let told = get(store, e.id, &mut b[..end]);
    let whole: &[u8] = b;
    mix_bytes(mix_registers(digest, told), &whole[8..end])
}

// The effect is a buffer of one element.
fn run(store: &mut [u8], x: u64, digest: u64) -> u64 {
    let e = an_element(next(x));
    let b = e.bytes;
    let end = e.end;
    let input = [0u8; 2424];
    let mut output = [a_byte(x); 128];
    let told = registers_of(
        Call::RunVcpu,
        run::run_vcpu(store, 0, 1, 0, &input, &mut output, &b[..end], an_exit(x)),
    );
    mix_run(digest, told, &output, store)
}

fn take(store: &mut [u8], x: u64, digest: u64) -> u64 {
    let mut form = [a_byte(x); 1844];
    let told = registers_of(
        Call::GetState,
        state::get_state(store, HAND_OVER, 2, 0, &mut form),
    );
    mix_bytes(mix_registers(digest, told), &form)
}

// With no values, which are then zero.
fn give(store: &mut [u8]) -> Registers {
    let form = b"\x10\0\0\0\0\0\0\0\0\0\0\0\0\0\0\0\0\0\0\0\0\0\0\0";
    registers_of(
        Call::SetState,
        state::set_state(store, HAND_OVER, 2, 0, form),
    )
}

// A call on guest 2, which both L1s make: a set, or its vCPU is taken or given back.
pub fn other(store: &mut [u8], x: u64, digest: u64) -> u64 {
    match x / 524288 % 4 {
        0 => take(store, x, digest),
        1 => mix_registers(digest, give(store)),
        _ => mix_registers(digest, set(store, 2, next(x))),
    }
}

fn turn(store: &mut [u8], x: u64, digest: u64) -> u64 {
    match an_operation(x) {
        Operation::Write => write(store, x, digest),
        Operation::Read => read(store, x, digest),
        Operation::Other => other(store, x, digest),
        Operation::Run => run(store, x, digest),
    }
}

fn turns(store: &mut [u8]) -> u64 {
    let mut digest = 1;
    let mut x = SEED;
    for _ in 0..OPERATIONS {
        x = next(x);
        digest = turn(store, x, digest);
    }
    digest
}

pub fn drill(pvr: u32) -> u64 {
    let mut store = [0u8; 29580];
    start(&mut store, pvr);
    turns(&mut store)
}
