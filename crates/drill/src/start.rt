// A store with vCPU 0 of guests 1 and 2; the first has a PVR, and both run buffers registered.
use octets::put32;

// Get state and set state of a guest.
const WIDE: u64 = 0x8000_0000_0000_0000;

// Capability bits 1 and 2: POWER9 and POWER10.
const BOTH: u64 = 0x6000_0000_0000_0000;

fn create(store: &mut [u8], guest: u64) {
    guests::create_guest(store, 0, 0xFFFF_FFFF_FFFF_FFFF);
    guests::create_vcpu(store, 0, guest, 0);
}

// Guest-wide, a buffer of one element: 0003 of 4 bytes.
fn set_pvr(store: &mut [u8], pvr: u32) {
    let mut bytes = [0u8; 12];
    let b: &mut [u8] = &mut bytes;
    put32(b, 0, 1);
    put32(b, 4, 0x0003_0004);
    put32(b, 8, pvr);
    state::set_state(store, WIDE, 1, 0, b);
}

// Two elements of 16 bytes, address and length: 0C00, the input, with the 2,424 bytes (0978) that all 164 elements need; 0C01, the output,
// with 128 (80).
pub fn start(store: &mut [u8], pvr: u32) {
    l0::set_capabilities(store, 0, BOTH);
    create(store, 1);
    create(store, 2);
    set_pvr(store, pvr);
    let registrations =
        b"\0\0\0\x02\x0C\0\0\x10\0\0\0\0\0\0\0\0\0\0\0\0\0\0\x09\x78\x0C\x01\0\x10\0\0\0\0\0\0\0\0\0\0\0\0\0\0\0\x80";
    state::set_state(store, 0, 1, 0, registrations);
}
