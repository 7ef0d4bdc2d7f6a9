// A parked vCPU's state taken into its form, and given back. `parts` tells where values lie, `zeros` tests one, `head` reads and writes a
// form's head; `taking` writes a form, `judging` tests one and `giving` stores its values. The types that they share are here.
#![tactic(auto)]

mod giving;
mod head;
mod judging;
mod parts;
mod taking;
mod zeros;

pub use giving::give;
pub use taking::take;

// A form being written: where its next value goes, and its present word of bits as far as they are known.
#[derive(Clone, Copy)]
pub struct Run {
    pub at: usize,
    pub word: u64,
}

// The head in words: the first holds version, vCPU id, a zero and 48 presence bits, the second 64, the third 58 and six zeros.
#[derive(Clone, Copy)]
pub struct Words {
    pub first: u64,
    pub second: u64,
    pub third: u64,
}
