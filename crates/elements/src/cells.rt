// A thread element by its ID, all that the L1 cache asks of one: a register's cell by literals, as in `registers`, any other's by
// the table.
ghost use Rattle.std.specs.Prelude.{◌≡◌, Some};
ghost use Rattle.elements.specs.Table.{number_of};
ghost use Rattle.elements.specs.Registers.{register_of};
ghost use Rattle.elements.specs.Cells.{cell_of, register_cell};

use super::numbers::{number_of, thread_element};
use super::registers::register_of;
use super::{Cell, Register};

#[tactic(auto, using(crate::proofs::CellLaws::by_size))]
fn register_number(r: Register, id: u16) -> usize
    requires { Some r ≡ register_of id }
    ensures { result ≡ number_of id }
{
    let n = id as usize;
    match r.size {
        8 => 3 + (n - 0x1000),
        16 => 102 + (n - 0x3000),
        _ => 87 + (n - 0x2000),
    }
}

#[tactic(auto, using(crate::proofs::CellLaws::by_found))]
pub fn register_cell(id: u16) -> Option<Cell>
    ensures { result ≡ register_cell id }
{
    let r = register_of(id)?;
    Some(Cell {
        number: register_number(r, id),
        size: r.size,
        position: r.position,
    })
}

// The cell of the ID's number, for every ID: one of no size where no thread element has an ID as high.
pub fn listed_cell(id: u16) -> Cell
    ensures { result ≡ cell_of id }
{
    let number = number_of(id);
    if 170 <= number {
        return Cell {
            number,
            size: 0,
            position: 0,
        };
    }
    let x = thread_element(number);
    Cell {
        number,
        size: x.size,
        position: x.position,
    }
}
