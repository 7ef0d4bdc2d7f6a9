// Thread elements by number: what comes before an ID, and which element a number is. Both scan the rows of the thread elements.
ghost use Rattle.std.specs.Prelude.{◌≡◌, ◌<◌};
ghost use Rattle.elements.specs.Table.{number_of, thread_element};

use super::Element;
use super::rows::{ALL_ROWS, GUEST_ROWS, bytes_each, bytes_of, many, row_at};

// How many thread elements have a lower ID, for every ID: of a thread element it is the number.
pub fn number_of(id: u16) -> usize
    ensures { result ≡ number_of id }
{
    let mut n = 0;
    for i in GUEST_ROWS..ALL_ROWS {
        let row = row_at(i);
        if id < row.first {
            return n;
        }
        if id <= row.last {
            return n + (id - row.first) as usize;
        }
        n += many(row);
    }
    n
}

pub fn thread_element(e: usize) -> Element
    requires { e < 170 }
    ensures { result ≡ thread_element e }
{
    let mut left = e;
    let mut at = 0;
    for i in GUEST_ROWS..ALL_ROWS {
        let row = row_at(i);
        let n = many(row);
        if left < n {
            return Element {
                id: row.first + left as u16,
                size: row.size,
                position: at + bytes_each(row) * left,
            };
        }
        at += bytes_of(row);
        left -= n;
    }
    Element {
        id: 0,
        size: 0,
        position: 0,
    }
}
