// The L0's other calls on a lent store: capabilities, the clock and the conversion. Each tests in 01's order, then acts; a refusal changes
// nothing. Guests and vCPUs, get and set state, and run are crates of their own; `numbered` makes any of the eight by its number.
#![tactic(auto)]

mod capabilities;
mod clock;
mod conversion;
mod numbered;

pub use capabilities::{fresh_store, get_capabilities, set_capabilities};
pub use clock::guest_clock;
pub use conversion::convert;
pub use numbered::{Kind, call, kind_name};
