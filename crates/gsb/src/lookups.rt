// The lookup of an ID in a buffer. It frames the elements and does not judge them.
ghost use Rattle.std.specs.Prelude.{◌≡◌, cond, ◌+◌, ◌≤◌, ◌<◌, eqb, length, Some, IfOk};
ghost use Rattle.gsb.specs.Walk.{id_at};
ghost use Rattle.gsb.specs.Lookup.{Inside, part_of, looked_up, value_of};

use super::bad_length;
use super::framing::{frame, placed};
use answer::{Bad, Fault, Place};
use octets::{get16, get32};

// Where the value part that was found lies in the caller's buffer.
#[derive(Clone, Copy)]
pub struct Found {
    pub at: usize,
    pub len: usize,
}

// The last element so far that has the ID, by its offset.
fn later(b: &[u8], id: u16, at: usize, last: Option<usize>) -> Option<usize>
    requires { at + 2 ≤ length b.now }
    ensures { result ≡ cond (eqb (id_at b.now at) id) (Some at) last }
{
    if get16(b, at) == id {
        return Some(at);
    }
    last
}

#[tactic(auto, unfolding(crate::specs::Lookup::part_of))]
fn part_of(b: &[u8], last: Option<usize>) -> Result<Found, Fault>
    requires { (4 ≤ length b.now) × Inside b.now last }
    ensures value { result ≡ part_of b.now last }
    ensures len_in_bounds { IfOk result (λ found. found.at + found.len ≤ length b.now) }
{
    let Some(at) = last else {
        return Err(Fault::Element(
            Bad::Id,
            Place {
                index: get32(b, 0) as usize,
                offset: 0,
            },
        ));
    };
    let len = get16(b, at + 2) as usize;
    Ok(Found { at: at + 4, len })
}

// The value part of the last counted element with the ID.
pub fn lookup(b: &[u8], id: u16) -> Result<Found, Fault>
    ensures value { result ≡ looked_up b.now id }
    ensures len_in_bounds { IfOk result (λ found. found.at + found.len ≤ length b.now) }
{
    if bad_length(b) {
        return Err(Fault::Length);
    }
    let count = get32(b, 0) as usize;
    let mut at = 4;
    let mut last = None;
    for i in 0..count {
        let next = placed(frame(b, at), i, at)?;
        last = later(b, id, at, last);
        at = next;
    }
    part_of(b, last)
}

// The part itself, of the caller's own buffer; empty in a refusal.
pub fn lookup_value<'a>(b: &'a [u8], id: u16) -> &'a [u8]
    ensures { result.now ≡ value_of b.now id }
{
    let Ok(found) = lookup(b, id) else {
        return &b[0..0];
    };
    let at = found.at;
    let end = at + found.len;
    &b[at..end]
}
