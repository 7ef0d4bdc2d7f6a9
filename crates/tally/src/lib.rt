// Request L5: summary records, one for each slot, and the layer above the calls that updates them. `counters` changes one record, `counting`
// counts the elements of a buffer, `slots` tells which records a call touches, `changes` what it makes of them; `layer` has all of it. The
// calls themselves know nothing of records.
#![tactic(auto)]

mod changes;
mod counters;
mod counting;
mod layer;
mod slots;

use answer::Answer;
pub use layer::tally;

// What is counted of the vCPU in a slot. A new one's exit reason is 4095.
#[repr(C)]
#[derive(Clone, Copy)]
pub struct Summary {
    pub runs: u32,
    pub elements: u32,
    pub refusals: u32,
    pub exit_reason: u32,
}

// What a call makes of a record that it touches. `Set` and `Ran` hold how many elements were set, `Ran` also the exit reason.
#[derive(Clone, Copy)]
pub enum Change {
    Nothing,
    Renewed,
    Set(u64),
    Ran(u64, u32),
    Refused,
}

// The slots that a call touches: bit i of `slots`, from the least significant on, is slot `first + i`.
#[derive(Clone, Copy)]
pub struct Touched {
    pub first: usize,
    pub slots: u64,
}

// What a call answers, and what is to be done with which records.
#[derive(Clone, Copy)]
pub struct Served {
    pub answer: Answer,
    pub first: usize,
    pub slots: u64,
    pub change: Change,
}
