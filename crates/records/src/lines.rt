// The lines that the program prints. Each function writes at a place and returns the place after.
ghost use Rattle.std.specs.Prelude.{◌+◌, ◌≤◌, ◌<◌, length};
ghost use Rattle.text.specs.Text.{Printed};
ghost use Rattle.records.specs.Replay.{record_line, bad_line};

use answer::Registers;
use text::{push, push_decimal, push_field};

// A kind has one digit, the other four numbers have at most 20.
pub fn push_record(text: &mut [u8], at: usize, number: u64, kind: u64, answer: Registers) -> usize
    requires { (kind < 10) × (at + 86 ≤ length text.old) }
    ensures { Printed text.old at (record_line number kind answer) text.new result × (result ≤ at + 86) }
{
    let mut end = push_field(text, at, number, 20);
    end = push_field(text, end, kind, 1);
    end = push_field(text, end, answer.r3, 20);
    end = push_field(text, end, answer.r4, 20);
    end = push_decimal(text, end, answer.r5, 20);
    push(text, end, b"\n")
}

pub fn push_bad(text: &mut [u8], at: usize, offset: u64) -> usize
    requires { at + 38 ≤ length text.old }
    ensures { Printed text.old at (bad_line offset) text.new result × (result ≤ at + 38) }
{
    let mut end = push(text, at, b"answer 19 offset ");
    end = push_decimal(text, end, offset, 20);
    push(text, end, b"\n")
}
