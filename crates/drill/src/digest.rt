// One number for all that was seen: 32 bits, to which each further number is added.
use answer::{Answer, Call, Registers, registers_of};
use gsb::lookup_value;

fn mix(digest: u64, n: u64) -> u64 {
    (digest % 0x1_0000_0000 * 31 + n % 0x1_0000_0000) % 0x1_0000_0000
}

pub fn mix_registers(digest: u64, r: Registers) -> u64 {
    mix(mix(mix(digest, r.r3), r.r4), r.r5)
}

pub fn mix_answer(digest: u64, call: Call, told: Answer) -> u64 {
    mix_registers(digest, registers_of(call, told))
}

pub fn mix_bytes(digest: u64, b: &[u8]) -> u64 {
    b.iter().fold(digest, |d, &x| mix(d, u64::from(x)))
}

// After an accepted run the L1 looks GPR 3 up in the output, and the store is seen too.
pub fn mix_run(digest: u64, told: Registers, output: &[u8], store: &[u8]) -> u64 {
    let seen = mix_bytes(mix_registers(digest, told), output);
    if told.r3 != 0 {
        return seen;
    }
    mix_bytes(mix_bytes(seen, lookup_value(output, 0x1003)), store)
}
