// The registers by literals: a walk and a move ask once an element, so these are the few order tests that they need. Both functions are
// proved equal to the table, and no other place restates it.
ghost use Rattle.std.specs.Prelude.{◌≡◌};
ghost use Rattle.elements.specs.Registers.{register_of, is_header};

use super::Register;

const DOUBLE: usize = 0x1000;

const LAST_DOUBLE: usize = 0x1053;

const WORD: usize = 0x2000;

const LAST_WORD: usize = 0x200E;

const VECTOR: usize = 0x3000;

const LAST_VECTOR: usize = 0x303F;

// The size of a register and where its value lies in a slot's values. A test for each range, in the order of how often they are met: a `match`
// over all three tests in the order of the IDs.
#[tactic(auto, using(crate::proofs::RegisterLaws::by_range))]
pub fn register_of(id: u16) -> Option<Register>
    ensures { result ≡ register_of id }
{
    let n = id as usize;
    if matches!(n, DOUBLE..=LAST_DOUBLE) {
        return Some(Register {
            size: 8,
            position: 40 + 8 * (n - DOUBLE),
        });
    }
    if matches!(n, VECTOR..=LAST_VECTOR) {
        return Some(Register {
            size: 16,
            position: 772 + 16 * (n - VECTOR),
        });
    }
    if matches!(n, WORD..=LAST_WORD) {
        return Some(Register {
            size: 4,
            position: 712 + 4 * (n - WORD),
        });
    }
    None
}

// Whether a header, its size above its ID, is that of a register of this size: one test where ID and size are read as one number.
#[tactic(auto, using(crate::proofs::RegisterLaws::by_header))]
pub fn is_register(size: usize, header: usize) -> bool
    ensures { result ≡ is_header size header }
{
    match size {
        8 => matches!(header, 0x8_1000..=0x8_1053),
        16 => matches!(header, 0x10_3000..=0x10_303F),
        4 => matches!(header, 0x4_2000..=0x4_200E),
        _ => false,
    }
}
