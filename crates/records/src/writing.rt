// A call record written into lent bytes: its head as three words and seven bytes, then the two pieces of data.
ghost use Rattle.std.specs.Prelude.{◌≡◌, ◌+◌, ◌*◌, ◌/◌, ◌^◌, ◌≤◌, ◌<◌, length};
ghost use Rattle.octets.specs.Bytes.{put, digits};
ghost use Rattle.records.specs.Write.{head_number, fits_head, Written, write_record};
ghost use Rattle.records.specs.Private.{Narrow};

use super::{Head, is_kind};
use answer::{Answer, Fault, RunBuffer, refusal, success};
use octets::{copy, put16, put32, put64};

// A word of a head: a digit of 4 bits, then the first 60 bits of the number that begins there.
fn word(digit: u64, next: u64) -> u64
    requires { digit < 16 }
    ensures { result ≡ digit * 2 ^ 60 + next / 16 }
{
    digit * 0x1000_0000_0000_0000 + next / 16
}

// Seven bytes, as `octets::get56` reads them.
fn put56(s: &mut [u8], at: usize, v: u64)
    requires { (at + 7 ≤ length s.old) × (v < 2 ^ 56) }
    ensures { s.new ≡ put s.old at (digits 7 v) }
{
    put32(s, at, (v / 0x100_0000) as u32);
    put16(s, at + 4, (v / 256 % 0x1_0000) as u16);
    s[at + 6] = (v % 256) as u8;
}

// The kind and the three long numbers, of which the last has its last four bits in the bytes behind.
fn put_words(s: &mut [u8], kind: u64, flags: u64, guest: u64, number: u64)
    requires { (24 ≤ length s.old) × (kind < 16) }
    ensures { s.new ≡ put s.old 0 (digits 24 (((kind * 2 ^ 64 + flags) * 2 ^ 64 + guest) * 2 ^ 60 + number / 16)) }
{
    put64(s, 0, word(kind, flags));
    put64(s, 8, word(flags % 16, guest));
    put64(s, 16, word(guest % 16, number));
}

fn put_head(s: &mut [u8], h: Head)
    requires { (31 ≤ length s.old) × Narrow h }
    ensures { s.new ≡ put s.old 0 (digits 31 (head_number h)) }
{
    put_words(s, h.kind, h.flags, h.guest, h.number);
    let exit = h.number % 16 * 0x1000 + h.exit_reason;
    let lengths = h.data_len as u64 * 0x2_0000 + h.effect_len as u64;
    put56(s, 24, (exit * 0x4_0000_0000 + lengths) * 64);
}

#[tactic(auto, unfolding(crate::specs::Write::fits_head))]
fn can_hold(h: Head) -> bool
    ensures { result ≡ fits_head h }
{
    is_kind(h.kind) && h.exit_reason < 0x1000 && h.data_len < 0x2_0000 && h.effect_len < 0x2_0000
}

// The record in the first bytes; the rest is left. What no record holds is refused whatever is lent.
pub fn write_record(
    bytes: &mut [u8],
    kind: u64,
    flags: u64,
    guest: u64,
    number: u64,
    exit_reason: u64,
    data: &[u8],
    effect: &[u8],
) -> Answer
    ensures { ◌≡◌ {A = Written} (record { answer = result; bytes = bytes.new }) (write_record bytes.old (record { kind = kind; flags = flags; guest = guest; number = number; exit = exit_reason; «data» = «data».now; effect = effect.now })) }
{
    let h = Head {
        kind,
        flags,
        guest,
        number,
        exit_reason,
        data_len: data.len(),
        effect_len: effect.len(),
    };
    if !can_hold(h) {
        return refusal(Fault::Record(0));
    }
    let len = 31 + h.data_len + h.effect_len;
    if bytes.len() < len {
        return refusal(Fault::Short(RunBuffer::Output));
    }
    put_head(bytes, h);
    copy(data, 0, bytes, 31, h.data_len);
    copy(effect, 0, bytes, 31 + h.data_len, h.effect_len);
    success(len as u64)
}
