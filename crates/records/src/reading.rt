// A record's head read from bytes at any offset: three words and seven bytes, of which the fields are digits.
ghost use Rattle.std.specs.Prelude.{◌≡◌, ◌+◌, ◌*◌, ◌%◌, ◌^◌, ◌≤◌, ◌<◌, length};
ghost use Rattle.records.specs.Record.{padding, read_head};
ghost use Rattle.records.specs.Private.{Heads};

use super::{Head, Unread, fits, is_kind};
use octets::{get56, get64};

// A number of 64 bits from the fifth bit of a word on; `digit` is its last four, the first of the next word.
fn long(word: u64, digit: u64) -> u64
    requires { digit < 16 }
    ensures { result ≡ word % 2 ^ 60 * 16 + digit }
{
    word % 0x1000_0000_0000_0000 * 16 + digit
}

fn head_at(b: &[u8], at: usize) -> Head
    requires { at + 31 ≤ length b.now }
    ensures { Heads b.now at result }
{
    let first = get64(b, at);
    let second = get64(b, at + 8);
    let third = get64(b, at + 16);
    let last = get56(b, at + 24);
    Head {
        kind: first / 0x1000_0000_0000_0000,
        flags: long(first, second / 0x1000_0000_0000_0000),
        guest: long(second, third / 0x1000_0000_0000_0000),
        number: long(third, last / 0x10_0000_0000_0000),
        exit_reason: last / 0x100_0000_0000 % 0x1000,
        data_len: (last / 0x80_0000 % 0x2_0000) as usize,
        effect_len: (last / 64 % 0x2_0000) as usize,
    }
}

fn padding_at(b: &[u8], at: usize) -> u64
    requires { at + 31 ≤ length b.now }
    ensures { result ≡ padding b.now at }
{
    get56(b, at + 24) % 64
}

// The record that begins at `at`, or why none does. A head is judged before its data has come.
#[tactic(auto, unfolding(crate::specs::Record::read_head, crate::specs::Record::head_good))]
pub fn read_head(bytes: &[u8], at: usize) -> Result<Head, Unread>
    ensures { result ≡ read_head bytes.now at }
{
    if !fits(bytes.len(), at, 31) {
        return Err(Unread::Cut);
    }
    let h = head_at(bytes, at);
    if !is_kind(h.kind) || padding_at(bytes, at) != 0 {
        return Err(Unread::Bad);
    }
    if !fits(bytes.len(), at, 31 + h.data_len + h.effect_len) {
        return Err(Unread::Cut);
    }
    Ok(h)
}
