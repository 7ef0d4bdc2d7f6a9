// The head of a form, in three words of 64 bits.
ghost use Rattle.std.specs.Prelude.{◌≡◌, ◌≤◌, ◌<◌, length};
ghost use Rattle.octets.specs.Bytes.{put};
ghost use Rattle.handover.specs.Form.{presence, is_shown, opens};
ghost use Rattle.handover.specs.Private.{word_bytes};

use super::Words;
use octets::{get64, put64};

pub fn put_head(buffer: &mut [u8], words: Words)
    requires { 24 ≤ length buffer.old }
    ensures { buffer.new ≡ put buffer.old 0 (word_bytes words) }
{
    put64(buffer, 0, words.first);
    put64(buffer, 8, words.second);
    put64(buffer, 16, words.third);
}

// Version, vCPU id and zeros.
pub fn is_open(b: &[u8], vcpu: u64) -> bool
    requires { (vcpu < 2048) × (24 ≤ length b.now) }
    ensures { result ≡ opens vcpu b.now }
{
    if get64(b, 0) / 0x1_0000_0000_0000 != 0x1000 + 2 * vcpu {
        return false;
    }
    get64(b, 16) % 64 == 0
}

// The presence bits of the three words.
pub fn presence_first(b: &[u8]) -> u64
    requires { 24 ≤ length b.now }
    ensures { result ≡ presence (is_shown b.now) 0 48 }
{
    get64(b, 0) % 0x1_0000_0000_0000
}

pub fn presence_second(b: &[u8]) -> u64
    requires { 24 ≤ length b.now }
    ensures { result ≡ presence (is_shown b.now) 48 64 }
{
    get64(b, 8)
}

pub fn presence_third(b: &[u8]) -> u64
    requires { 24 ≤ length b.now }
    ensures { result ≡ presence (is_shown b.now) 112 58 }
{
    get64(b, 16) / 64
}
