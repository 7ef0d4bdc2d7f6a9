// The element that a write or a read names, looked up once: nearly always a register, which needs no table.
ghost use Rattle.std.specs.Prelude.{◌≡◌};
ghost use Rattle.l1.specs.Marks.{allowed, is_input, is_readable};
ghost use Rattle.l1.specs.Private.{cell_if};

use elements::{Cell, Offer, is_offered, kind_of, listed_cell, register_cell};
use rules::{Context, Usage, permitted};

// What the cache never takes or never gives back, whatever a list permits.
const NOP: u16 = 0x0000;

const RUN_INPUT: u16 = 0x0C00;

const RUN_OUTPUT: u16 = 0x0C01;

// The one register that is not read.
const PPR: u16 = 0x103A;

fn allowed(offer: Offer, usage: Usage, id: u16) -> bool
    ensures { result ≡ allowed offer usage id }
{
    let k = Context {
        usage,
        capabilities: 0,
        offer,
    };
    permitted(k, id, kind_of(id))
}

// An element that is no register, or that is one and not permitted: by the table.
#[tactic(auto, using(crate::proofs::Values::by_table))]
fn other_cell(offer: Offer, usage: Usage, id: u16) -> Option<Cell>
    ensures { result ≡ cell_if (allowed offer usage id) id }
{
    if allowed(offer, usage, id) {
        Some(listed_cell(id))
    } else {
        None
    }
}

#[tactic(auto, using(crate::proofs::Values::by_input))]
pub fn input_cell(offer: Offer, id: u16) -> Option<Cell>
    ensures { result ≡ cell_if (is_input offer id) id }
{
    match register_cell(id) {
        Some(x) if is_offered(offer, id) => Some(x),
        _ if id == NOP => None,
        _ => other_cell(offer, Usage::RunInput, id),
    }
}

#[tactic(auto, using(crate::proofs::Values::by_readable))]
pub fn readable_cell(offer: Offer, id: u16) -> Option<Cell>
    ensures { result ≡ cell_if (is_readable offer id) id }
{
    match register_cell(id) {
        Some(x) if id != PPR && is_offered(offer, id) => Some(x),
        _ => match id {
            NOP | RUN_INPUT | RUN_OUTPUT => None,
            _ => other_cell(offer, Usage::ThreadGet, id),
        },
    }
}
