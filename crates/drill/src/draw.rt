// What the operations are made of, drawn from one row of numbers: each night is the same, and both L1s are given the same.
ghost use Rattle.std.specs.Prelude.{◌≡◌, ◌≤◌, length};

use elements::{number_of, thread_element};
use octets::{put16, put32};

pub const OPERATIONS: u64 = 600;

// The row starts after this number.
pub const SEED: u64 = 20261115;

// On guest 1, but for Other, a call on guest 2.
#[derive(Clone, Copy)]
pub enum Operation {
    Write,
    Read,
    Other,
    Run,
}

// The number after x. Its low digits repeat soon: what is drawn comes from the others.
pub fn next(x: u64) -> u64 {
    (x % 0x8000_0000 * 1_103_515_245 + 12_345) % 0x8000_0000
}

// Writes mostly, then reads.
pub fn an_operation(x: u64) -> Operation {
    match x / 65536 % 8 {
        0..=3 => Operation::Write,
        4..=5 => Operation::Read,
        6 => Operation::Other,
        _ => Operation::Run,
    }
}

// An ID of every kind: registers mostly; unlisted ones, the NOP and the run buffers among them.
pub fn an_id(x: u64) -> u16 {
    let n = (x / 4096 % 4096) as u16;
    match x / 256 % 8 {
        0..=2 => 0x1000 + n % 0x55,
        3..=4 => 0x3000 + n % 0x40,
        5 => 0x2000 + n % 0x10,
        6 => 0xF000 + n % 4,
        _ if n % 4 == 0 => 0,
        _ => 0x0C00 + n % 3,
    }
}

// The listed size mostly, else one that no element has.
fn a_size(id: u16, x: u64) -> usize
    ensures { result ≤ 16 }
{
    if x / 256 % 8 == 0 {
        return 5;
    }
    let e = number_of(id);
    if 170 <= e {
        return 8;
    }
    let size = thread_element(e).size;
    if 16 < size {
        return 16;
    }
    size
}

// An exit reason of the table mostly, else an unknown one.
pub fn an_exit(x: u64) -> u64 {
    let reasons = [0xC00, 0xC00, 0xC00, 0xE00, 0xE40, 0xF80, 0, 0xC01];
    reasons[(x / 256 % 8) as usize]
}

// What a run's buffers are full of before it.
pub fn a_byte(x: u64) -> u8 {
    (x / 256 % 256) as u8
}

fn fill(b: &mut [u8], x: u64) {
    let mut n = x;
    for byte in b.iter_mut() {
        n = next(n);
        *byte = a_byte(n);
    }
}

// A buffer of one element, good or bad: count 1, the ID, a size, and the value from 8 to the end. What follows is not lent.
#[derive(Clone, Copy)]
pub struct Element {
    pub id: u16,
    pub bytes: [u8; 24],
    pub end: usize,
}

pub fn an_element(x: u64) -> Element
    ensures { (length result.bytes ≡ 24) × (8 ≤ result.end) × (result.end ≤ 24) }
{
    let id = an_id(x);
    let size = a_size(id, next(x));
    let mut bytes = [0u8; 24];
    let b: &mut [u8] = &mut bytes;
    fill(b, x);
    put32(b, 0, 1);
    put16(b, 4, id);
    put16(b, 6, size as u16);
    Element {
        id,
        bytes,
        end: 8 + size,
    }
}
