// Text appended to a lent buffer: each function writes at a place and returns the place after.
#![tactic(auto)]

ghost use Rattle.std.specs.Prelude.{◌≡◌, ◌++◌, ◌+◌, ◌^◌, ◌≤◌, ◌<◌, length};
ghost use Rattle.text.specs.Text.{Printed, ascii, digit, shown, decimal, hex4};

use octets::copy;

pub fn push(text: &mut [u8], at: usize, s: &[u8]) -> usize
    requires { at + length s.now ≤ length text.old }
    ensures { Printed text.old at s.now text.new result }
{
    copy(s, 0, text, at, s.len());
    at + s.len()
}

// In ASCII 48 is `0`, and 55 is ten before `A`.
fn digit_of(d: u64) -> u8
    requires { d < 16 }
    ensures { result ≡ digit d }
{
    if d < 10 { 48 + d as u8 } else { 55 + d as u8 }
}

// At most `most` digits. It calls itself for those in front of the last, so that they are written in order.
fn push_shown(text: &mut [u8], at: usize, n: u64, most: usize) -> usize
    requires { at + length (shown most n) ≤ length text.old }
    ensures { Printed text.old at (shown most n) text.new result }
{
    if most == 0 {
        return at;
    }
    if n < 10 {
        text[at] = digit_of(n);
        return at + 1;
    }
    let end = push_shown(text, at, n / 10, most - 1);
    text[end] = digit_of(n % 10);
    end + 1
}

// A number that is known to have at most `most` digits, so that the callers count room in plain numbers.
pub fn push_decimal(text: &mut [u8], at: usize, n: u64, most: usize) -> usize
    requires { (0 < most) × (most ≤ 20) × (n < 10 ^ most) × (at + most ≤ length text.old) }
    ensures { Printed text.old at (decimal n) text.new result × (result ≤ at + most) }
{
    push_shown(text, at, n, most)
}

// Such a number, and a space.
pub fn push_field(text: &mut [u8], at: usize, n: u64, most: usize) -> usize
    requires { (0 < most) × (most ≤ 20) × (n < 10 ^ most) × (at + most + 1 ≤ length text.old) }
    ensures { Printed text.old at (decimal n ++ ascii " ") text.new result × (result ≤ at + most + 1) }
{
    let end = push_decimal(text, at, n, most);
    push(text, end, b" ")
}

pub fn push_hex4(text: &mut [u8], at: usize, n: u16) -> usize
    requires { at + 4 ≤ length text.old }
    ensures { Printed text.old at (hex4 n) text.new result }
{
    let v = n as u64;
    text[at] = digit_of(v / 4096 % 16);
    text[at + 1] = digit_of(v / 256 % 16);
    text[at + 2] = digit_of(v / 16 % 16);
    text[at + 3] = digit_of(v % 16);
    at + 4
}
