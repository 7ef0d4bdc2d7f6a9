// The values of a guest or a slot, moved into an accepted guest state buffer. They start at `base` of the store.
ghost use Rattle.std.specs.Prelude.{◌≡◌, ◌+◌, ◌≤◌, length};
ghost use Rattle.octets.specs.Bytes.{put};
ghost use Rattle.elements.specs.Table.{kind_of};
ghost use Rattle.gsb.specs.Walk.{count_of, id_at, next_at};
ghost use Rattle.transfer.specs.Transfer.{read_from, fill_as, filled, Fits, Moves, Ready, AllReady};

use elements::{Kind, Source, kind_of, register_of};
use octets::{copy, get16, get32, put64};

fn fill_from(source: Source, store: &[u8], base: usize, b: &mut [u8], to: usize, size: usize)
    requires { Fits source base size (length store.now) × (to + size ≤ length b.old) }
    ensures { b.new ≡ put b.old to (read_from source base size store.now) }
{
    match source {
        Source::Fixed(n) => put64(b, to, n),
        Source::Stored(position) => copy(store, base + position, b, to, size),
    }
}

fn fill_as(kind: Kind, store: &[u8], base: usize, b: &mut [u8], at: usize, size: usize)
    requires { Moves kind base size (length store.now) × (at + 4 + size ≤ length b.old) }
    ensures { b.new ≡ fill_as kind base store.now at b.old }
{
    if let Kind::Listed(x) = kind {
        fill_from(x.source, store, base, b, at + 4, x.size);
    }
}

// Fills in the element at `at`, and returns where the next starts.
fn fill_other(store: &[u8], base: usize, b: &mut [u8], at: usize) -> usize
    requires { Ready base b.old at (length store.now) }
    ensures { (result ≡ next_at b.old at) × (b.new ≡ fill_as (kind_of (id_at b.old at)) base store.now at b.old) }
{
    if get32(b, at) == 0 {
        return at + 4;
    }
    let size = get16(b, at + 2) as usize;
    fill_as(kind_of(get16(b, at)), store, base, b, at, size);
    at + 4 + size
}

fn fill_element(store: &[u8], base: usize, b: &mut [u8], at: usize) -> usize
    requires { Ready base b.old at (length store.now) }
    ensures { (result ≡ next_at b.old at) × (b.new ≡ fill_as (kind_of (id_at b.old at)) base store.now at b.old) }
{
    let Some(x) = register_of(get16(b, at)) else {
        return fill_other(store, base, b, at);
    };
    copy(store, base + x.position, b, at + 4, x.size);
    let step = 4 + x.size;
    at + step
}

// The values that an accepted buffer asks for, filled in.
pub fn fill(store: &[u8], base: usize, b: &mut [u8])
    requires { AllReady base b.old (length store.now) }
    ensures { b.new ≡ filled base store.now b.old (count_of b.old) }
{
    let count = get32(b, 0) as usize;
    let mut at = 4;
    for _i in 0..count {
        at = fill_element(store, base, b, at);
    }
}
