// The one constant table, in 01's own ranges: all that is told of an ID, or of a number, is read from it. The NOP, ID 0, has no size
// and no row.
ghost use Rattle.std.specs.Prelude.{◌≡◌, ◌*◌, ◌<◌, ◌≤◌};
ghost use Rattle.elements.specs.Table.{many};
ghost use Rattle.elements.specs.Ranges.{range_at};
ghost use Rattle.elements.specs.Private.{bytes_each};

use super::{Access, Row, Scope};

macro_rules! row {
    ($first:expr, $last:expr, $size:expr, $access:ident, $scope:ident) => {
        Row {
            first: $first,
            last: $last,
            size: $size,
            access: Access::$access,
            scope: Scope::$scope,
        }
    };
}

// First ID, last ID, size, access, scope.
static ROWS: [Row; 16] = [
    row!(0x0001, 0x0001, 8, Read, Guest),
    row!(0x0002, 0x0002, 8, Read, Guest),
    row!(0x0003, 0x0003, 4, ReadWrite, Guest),
    row!(0x0004, 0x0004, 8, ReadWrite, Guest),
    row!(0x0005, 0x0005, 24, ReadWrite, Guest),
    row!(0x0006, 0x0006, 16, ReadWrite, Guest),
    row!(0x0C00, 0x0C01, 16, ReadWrite, Thread),
    row!(0x0C02, 0x0C02, 8, ReadWrite, Thread),
    row!(0x1000, 0x1039, 8, ReadWrite, Thread),
    row!(0x103A, 0x103A, 8, Write, Thread),
    row!(0x103B, 0x1053, 8, ReadWrite, Thread),
    row!(0x2000, 0x200E, 4, ReadWrite, Thread),
    row!(0x3000, 0x303F, 16, ReadWrite, Thread),
    row!(0xF000, 0xF000, 8, Read, Thread),
    row!(0xF001, 0xF002, 4, Read, Thread),
    row!(0xF003, 0xF003, 8, Read, Thread),
];

// The rows of the guests' elements come first.
pub const GUEST_ROWS: usize = 6;

pub const ALL_ROWS: usize = 16;

#[tactic(auto, unfolding(crate::specs::Ranges::ranges))]
pub fn row_at(i: usize) -> Row
    requires { i < 16 }
    ensures { result ≡ range_at i }
{
    ROWS[i]
}

// How many IDs a row names.
pub fn many(row: Row) -> usize
    requires { row.first ≤ row.last }
    ensures { (result ≡ many row) × (result ≤ 65536) }
{
    row.last as usize + 1 - row.first as usize
}

// How many bytes each of them takes in the values of its scope: 0x0001 and 0x0002 are not stored.
pub fn bytes_each(row: Row) -> usize
    ensures { result ≡ bytes_each row }
{
    if row.first <= 0x0002 { 0 } else { row.size }
}

// And all of them.
pub fn bytes_of(row: Row) -> usize
    requires { (row.first ≤ row.last) × (bytes_each row * many row ≤ 1024) }
    ensures { (result ≡ bytes_each row * many row) × (result ≤ 1024) }
{
    bytes_each(row) * many(row)
}
