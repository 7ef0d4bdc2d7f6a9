// The L1 with the cache, of vCPU 0 of guest 1. Each operation adds what it saw to the digest.
use super::digest::{mix_answer, mix_bytes, mix_run};
use super::draw::{OPERATIONS, Operation, SEED, a_byte, an_element, an_exit, an_operation, next};
use super::plain::other;
use super::start::start;
use answer::{Call, registers_of};

// The digests so far: of all that the L1 saw, and of the run inputs.
#[derive(Clone, Copy)]
pub struct Seen {
    pub all: u64,
    pub inputs: u64,
}

fn write(values: &mut [u8], marks: &mut [u64], pvr: u32, x: u64, digest: u64) -> u64 {
    let e = an_element(x);
    let b = e.bytes;
    let end = e.end;
    let told = l1::write(values, marks, pvr, e.id, &b[8..end]);
    mix_answer(digest, Call::CacheWrite, told)
}

fn read(store: &[u8], values: &mut [u8], marks: &mut [u64], pvr: u32, x: u64, digest: u64) -> u64 {
    let e = an_element(x);
    let mut b = e.bytes;
    let end = e.end;
    let value = &mut b[8..end];
    let told = l1::read(store, 1, 0, pvr, values, marks, e.id, value);
    mix_bytes(mix_answer(digest, Call::CacheRead, told), value)
}

// The effect is a buffer of one element.
fn run(
    store: &mut [u8],
    values: &mut [u8],
    marks: &mut [u64],
    pvr: u32,
    x: u64,
    seen: Seen,
) -> Seen {
    let e = an_element(next(x));
    let b = e.bytes;
    let end = e.end;
    let byte = a_byte(x);
    let mut input = [byte; 2424];
    let mut output = [byte; 128];
    let told = registers_of(
        Call::CacheRun,
        l1::run(
            store,
            0,
            1,
            0,
            pvr,
            values,
            marks,
            &mut input,
            &mut output,
            &b[..end],
            an_exit(x),
        ),
    );
    Seen {
        all: mix_run(seen.all, told, &output, store),
        inputs: mix_bytes(seen.inputs, &input),
    }
}

fn turn(
    store: &mut [u8],
    values: &mut [u8],
    marks: &mut [u64],
    pvr: u32,
    x: u64,
    seen: Seen,
) -> Seen {
    let all = match an_operation(x) {
        Operation::Write => write(values, marks, pvr, x, seen.all),
        Operation::Read => read(store, values, marks, pvr, x, seen.all),
        Operation::Other => other(store, x, seen.all),
        Operation::Run => return run(store, values, marks, pvr, x, seen),
    };
    Seen { all, ..seen }
}

fn turns(store: &mut [u8], values: &mut [u8], marks: &mut [u64], pvr: u32) -> Seen {
    let mut seen = Seen { all: 1, inputs: 1 };
    let mut x = SEED;
    for _ in 0..OPERATIONS {
        x = next(x);
        seen = turn(store, values, marks, pvr, x, seen);
    }
    seen
}

pub fn drill(pvr: u32) -> Seen {
    let mut store = [0u8; 29580];
    let mut values = [0u8; 1820];
    let mut marks = [0u64; 6];
    start(&mut store, pvr);
    turns(&mut store, &mut values, &mut marks, pvr)
}
