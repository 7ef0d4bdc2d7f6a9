// Call records: `reading` tells a record from bytes that are none, `writing` makes one, `playing` makes the calls of many, and `lines` says
// what each one told. The types are here.
#![tactic(auto)]

mod lines;
mod playing;
mod reading;
mod writing;

ghost use Rattle.std.specs.Prelude.{◌≡◌, ◌+◌, leb};
ghost use Rattle.records.specs.Record.{is_kind};

pub use playing::{ROOM, Step, WINDOW, replay};
pub use reading::read_head;
pub use writing::write_record;

// What stands before a record's two pieces of data. `number` is the vCPU, the token or the bitmap.
#[derive(Clone, Copy)]
pub struct Head {
    pub kind: u64,
    pub flags: u64,
    pub guest: u64,
    pub number: u64,
    pub exit_reason: u64,
    pub data_len: usize,
    pub effect_len: usize,
}

// Why no record begins at a place. `Cut`: the bytes end before the record does. `Bad`: no bytes behind them make it a record.
#[derive(Clone, Copy)]
pub enum Unread {
    Cut,
    Bad,
}

// n bytes from `at` on lie among `len`, whatever the sum.
fn fits(len: usize, at: usize, n: usize) -> bool
    ensures { result ≡ leb (at + n) len }
{
    at <= len && n <= len - at
}

#[tactic(auto, unfolding(crate::specs::Record::is_kind))]
fn is_kind(kind: u64) -> bool
    ensures { result ≡ is_kind kind }
{
    matches!(kind, 1..=8)
}
