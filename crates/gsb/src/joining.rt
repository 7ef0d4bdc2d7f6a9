// Two buffers joined into one: both are measured before a byte of the result changes.
ghost use Rattle.std.specs.Prelude.{◌≡◌, ◌≤◌, length};
ghost use Rattle.answer.specs.Answer.{answer_of};
ghost use Rattle.gsb.specs.Join.{joined, Joining, join_into};
ghost use Rattle.gsb.specs.Private.{extent_of, Room, Measured, settled};

use super::framing::{frame_by_size, placed};
use super::{BadElement, bad_length};
use answer::{Answer, Fault, RunBuffer};
use octets::{copy, get32, put32};

// Where the counted elements end, or the first that is cut.
fn end_of(b: &[u8]) -> Result<usize, BadElement>
    requires { 4 ≤ length b.now }
    ensures { (result ≡ extent_of b.now) × Room result b.now }
{
    let count = get32(b, 0) as usize;
    let mut at = 4;
    for i in 0..count {
        at = placed(frame_by_size(b, at), i, at)?;
    }
    Ok(at)
}

// The counted elements of both end at m and at n.
fn join_at(first: &[u8], m: usize, second: &[u8], n: usize, res: &mut [u8]) -> Result<u64, Fault>
    requires { Measured first.now m × Measured second.now n }
    ensures { ◌≡◌ {A = Joining} (record { answer = answer_of result; result = res.new }) (settled (joined first.now second.now) res.old) }
{
    let len = m + n - 4;
    if 65536 < len {
        return Err(Fault::Length);
    }
    if res.len() < len {
        return Err(Fault::Short(RunBuffer::Output));
    }
    put32(res, 0, get32(first, 0) + get32(second, 0));
    copy(first, 4, res, 4, m - 4);
    copy(second, 4, res, m, n - 4);
    Ok(len as u64)
}

fn join_both(first: &[u8], second: &[u8], res: &mut [u8]) -> Result<u64, Fault>
    ensures { ◌≡◌ {A = Joining} (record { answer = answer_of result; result = res.new }) (join_into first.now second.now res.old) }
{
    if bad_length(first) {
        return Err(Fault::Length);
    }
    if bad_length(second) {
        return Err(Fault::Length);
    }
    let m = end_of(first)?;
    let n = end_of(second)?;
    join_at(first, m, second, n, res)
}

// What is told is the joined length.
pub fn join(first: &[u8], second: &[u8], res: &mut [u8]) -> Answer
    ensures { ◌≡◌ {A = Joining} (record { answer = result; result = res.new }) (join_into first.now second.now res.old) }
{
    join_both(first, second, res).into()
}
