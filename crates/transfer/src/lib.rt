// An accepted guest state buffer's values, moved to a guest's or a slot's values, which start at `base` of the store.
// Apart from the calls, since set and run share it. `filling` moves them the other way; what both mean is defined here.
#![tactic(auto)]

mod filling;

ghost use Rattle.std.specs.Prelude.{◌≡◌, ◌+◌, ◌≤◌, length};
ghost use Rattle.octets.specs.Bytes.{bytes_at, put};
ghost use Rattle.elements.specs.Table.{kind_of};
ghost use Rattle.gsb.specs.Walk.{count_of, id_at, next_at, offset_at};
ghost use Rattle.transfer.specs.Transfer.{value_at, put_from, put_as, applied, Fits, Moves, Ready, AllReady};
ghost use Rattle.transfer.specs.Private.{Stepped, Onward};

use answer::Place;
use elements::{Kind, Source, kind_of, register_of};
pub use filling::fill;
use octets::{copy, get16, get32};

fn put_from(source: Source, store: &mut [u8], base: usize, b: &[u8], from: usize, size: usize)
    requires { Fits source base size (length store.old) × (from + size ≤ length b.now) }
    ensures { store.new ≡ put_from source base (bytes_at b.now from size) store.old }
{
    if let Source::Stored(position) = source {
        copy(b, from, store, base + position, size);
    }
}

fn put_as(kind: Kind, store: &mut [u8], base: usize, b: &[u8], from: usize, size: usize)
    requires { Moves kind base size (length store.old) × (from + size ≤ length b.now) }
    ensures { store.new ≡ put_as kind base (bytes_at b.now from size) store.old }
{
    if let Kind::Listed(x) = kind {
        put_from(x.source, store, base, b, from, size);
    }
}

// Stores the element at `at`, and returns where the next starts. An empty NOP is told by one read.
fn store_other(store: &mut [u8], base: usize, b: &[u8], at: usize) -> usize
    requires { Ready base b.now at (length store.old) }
    ensures { (result ≡ next_at b.now at) × (store.new ≡ put_as (kind_of (id_at b.now at)) base (value_at b.now at) store.old) }
{
    if get32(b, at) == 0 {
        return at + 4;
    }
    let size = get16(b, at + 2) as usize;
    put_as(kind_of(get16(b, at)), store, base, b, at + 4, size);
    at + 4 + size
}

// Stores the element at `at` if it is a register, by its listed size: the next element does not wait for this one's. Returns where the
// next starts; `None` if it is no register, and then nothing was done.
fn store_register(store: &mut [u8], base: usize, b: &[u8], at: usize) -> Option<usize>
    requires { Ready base b.now at (length store.old) }
    ensures { Stepped result base b.now at store.old store.new }
{
    let x = register_of(get16(b, at))?;
    copy(b, at + 4, store, base + x.position, x.size);
    let step = 4 + x.size;
    Some(at + step)
}

// The registers that follow one another from a place on, stored: a loop of their own is short. No `for`: the compiler counts its index twice, three
// instructions an element more.
fn store_registers(store: &mut [u8], base: usize, b: &[u8], count: usize, from: Place) -> Place
    requires { AllReady base b.now (length store.old) × (count ≡ count_of b.now) × (from.index ≤ count) × (from.offset ≡ offset_at b.now from.index) }
    ensures { Onward base b.now count from result store.old store.new }
{
    let mut at = from.offset;
    let mut i = from.index;
    while i < count {
        let Some(next) = store_register(store, base, b, at) else {
            return Place {
                index: i,
                offset: at,
            };
        };
        at = next;
        i += 1;
    }
    Place {
        index: i,
        offset: at,
    }
}

// The elements of an accepted buffer, stored in order.
pub fn apply(store: &mut [u8], base: usize, b: &[u8])
    requires { AllReady base b.now (length store.old) }
    ensures { store.new ≡ applied base b.now (count_of b.now) store.old }
{
    let count = get32(b, 0) as usize;
    let mut at = 4;
    let mut i = 0;
    while i < count {
        let here = store_registers(
            store,
            base,
            b,
            count,
            Place {
                index: i,
                offset: at,
            },
        );
        let index = here.index;
        let offset = here.offset;
        if count <= index {
            return;
        }
        at = store_other(store, base, b, offset);
        i = index + 1;
    }
}
