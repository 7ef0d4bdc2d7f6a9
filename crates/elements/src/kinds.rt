// What the table of elements says of an ID.
ghost use Rattle.std.specs.Prelude.{◌≡◌, ◌+◌, ◌-◌, ◌*◌, ◌≤◌, ◌<◌, ◌^◌};
ghost use Rattle.elements.specs.Table.{kind_of};
ghost use Rattle.elements.specs.Private.{ranges_from, bytes_each, source_at, listed_as, scanned};

use super::rows::{ALL_ROWS, GUEST_ROWS, bytes_each, bytes_of, row_at};
use super::{Entry, Kind, Row, Source};

fn source_at(id: u16, position: usize) -> Source
    ensures { result ≡ source_at id position }
{
    match id {
        0x0001 => Source::Fixed(1844),
        0x0002 => Source::Fixed(124),
        _ => Source::Stored(position),
    }
}

// An ID that the row names, with so many bytes before the row's.
fn listed(row: Row, id: u16, at: usize) -> Kind
    requires { (row.first ≤ id) × (at + bytes_each row * (id - row.first) < 2 ^ 64) }
    ensures { result ≡ listed_as row id at }
{
    Kind::Listed(Entry {
        size: row.size,
        access: row.access,
        scope: row.scope,
        source: source_at(id, at + bytes_each(row) * (id - row.first) as usize),
    })
}

// A scan of some rows of one scope: the position is the sum of what stands before.
fn scan(id: u16, from: usize, end: usize) -> Kind
    requires { (from ≤ end) × (end ≤ 16) }
    ensures { result ≡ scanned (ranges_from (end - from) from) id 0 }
{
    let mut at = 0;
    for i in from..end {
        let row = row_at(i);
        if id < row.first {
            return Kind::Unlisted;
        }
        if id <= row.last {
            return listed(row, id, at);
        }
        at += bytes_of(row);
    }
    Kind::Unlisted
}

pub fn kind_of(id: u16) -> Kind
    ensures { result ≡ kind_of id }
{
    if id == 0 {
        return Kind::Nop;
    }
    if id <= row_at(GUEST_ROWS - 1).last {
        return scan(id, 0, GUEST_ROWS);
    }
    scan(id, GUEST_ROWS, ALL_ROWS)
}
