// The walk over the counted elements of a buffer, to the first bad one.
ghost use Rattle.std.specs.Prelude.{◌≡◌, ◌+◌, ◌≤◌, ◌<◌, length, Ok};
ghost use Rattle.gsb.specs.Private.{reach_of, QuickVerdict, Skipped};
ghost use Rattle.gsb.specs.Walk.{judged, walk_on, first_bad};

use super::{BadElement, judge};
use answer::{Bad, Place};
use elements::{Offer, is_offered, is_register};
use octets::{get_turned, get32};
use rules::{Context, Usage, of_thread};

// What a verdict that is not good makes of the walk.
#[tactic(auto, unfolding(crate::specs::Walk::walk_on))]
fn stop(verdict: Result<usize, Bad>, place: Place) -> Result<(), BadElement>
    ensures { result ≡ walk_on verdict place.index place.offset (λ next. Ok tt) }
{
    match verdict {
        Ok(_) => Ok(()),
        Err(bad) => Err(BadElement { bad, place }),
    }
}

// How far `quick` may look: to the end, where the use is about a vCPU; nowhere else.
fn reach(b: &[u8], usage: Usage) -> usize
    ensures { result ≡ reach_of usage b.now }
{
    if of_thread(usage) {
        return b.len();
    }
    0
}

// The registers but PPR, which every use of a vCPU permits and no value rule names, and an empty NOP: good by one read if they lie
// well within `room`, which is `reach`, and on the guest's list, which has all vectors. `None` is no verdict: it leaves them to `judge`.
// The list before PPR: so the compiler tests a bit for each ID, where it else makes a comparison with each of the list's rows.
fn quick(b: &[u8], at: usize, room: usize, offer: Offer) -> Option<usize>
    requires { (at ≤ length b.now) × (room ≤ length b.now) }
    ensures { QuickVerdict result room offer b.now at }
{
    if room < at + 12 {
        return None;
    }
    let key = get_turned(b, at) as usize;
    if is_register(8, key) {
        if !is_offered(offer, (key % 65536) as u16) {
            return None;
        }
        if key == 0x8_103A {
            return None;
        }
        return Some(at + 12);
    }
    if key == 0 {
        return Some(at + 4);
    }
    if is_register(16, key) & (at + 20 <= room) {
        return Some(at + 20);
    }
    if is_register(4, key) & is_offered(offer, (key % 65536) as u16) {
        return Some(at + 8);
    }
    None
}

// Past the elements from a place on that `quick` finds good: a loop of their own is short.
fn skip(b: &[u8], count: usize, from: Place, room: usize, offer: Offer) -> Place
    requires { (from.index ≤ count) × (from.offset ≤ length b.now) × (room ≤ length b.now) }
    ensures { Skipped b.now count room offer from result }
{
    let mut at = from.offset;
    for i in from.index..count {
        let Some(next) = quick(b, at, room, offer) else {
            return Place {
                index: i,
                offset: at,
            };
        };
        at = next;
    }
    Place {
        index: count,
        offset: at,
    }
}

// The count is never trusted: the walk leaves at the first header that does not fit.
pub fn first_bad(b: &[u8], k: Context) -> Result<(), BadElement>
    requires { 4 ≤ length b.now }
    ensures { result ≡ first_bad k b.now }
{
    let count = get32(b, 0) as usize;
    // Nothing is counted, as in most runs: the shortest way out.
    if count == 0 {
        return Ok(());
    }
    let usage = k.usage;
    let offer = k.offer;
    let room = reach(b, usage);
    let mut at = 4;
    let mut i = 0;
    let end = 'walk: loop {
        let here = skip(
            b,
            count,
            Place {
                index: i,
                offset: at,
            },
            room,
            offer,
        );
        if count <= here.index {
            return Ok(());
        }
        let verdict = judge(b, here.offset, k);
        let Ok(next) = verdict else {
            break 'walk stop(verdict, here);
        };
        at = next;
        i = here.index + 1;
    };
    end
}
