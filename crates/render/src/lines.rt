// The lines of the listing. Each function writes at a place and returns the place after.
ghost use Rattle.std.specs.Prelude.{◌+◌, ◌≤◌, ◌<◌, length};
ghost use Rattle.gsb.specs.Walk.{count_of, first_bad};
ghost use Rattle.text.specs.Text.{Printed};
ghost use Rattle.render.specs.Listing.{thread_set, first_line, verdict_text, line, lines, refused_line, last_line};

use answer::{Bad, Call, Fault, Registers, refusal, registers_of};
use elements::Offer;
use gsb::{first_bad, judge};
use octets::{get16, get32};
use rules::{Context, Usage};
use text::{push, push_decimal, push_field, push_hex4};

// What the buffer is judged as.
const THREAD_SET: Context = Context {
    usage: Usage::ThreadSet,
    capabilities: 0,
    offer: Offer::Full,
};

// The count has at most ten digits, the length five: 32 characters with the words.
pub fn push_first(b: &[u8], text: &mut [u8], at: usize) -> usize
    requires { (4 ≤ length b.now) × (length b.now ≤ 65536) × (at + 32 ≤ length text.old) }
    ensures { Printed text.old at (first_line b.now) text.new result × (result ≤ at + 32) }
{
    let count = get32(b, 0) as u64;
    let mut end = push(text, at, b"elements ");
    end = push_decimal(text, end, count, 10);
    end = push(text, end, b" bytes ");
    end = push_decimal(text, end, b.len() as u64, 5);
    push(text, end, b"\n")
}

fn push_verdict(text: &mut [u8], at: usize, verdict: Result<usize, Bad>) -> usize
    requires { at + 5 ≤ length text.old }
    ensures { Printed text.old at (verdict_text verdict) text.new result × (result ≤ at + 5) }
{
    match verdict {
        Ok(_) => push(text, at, b" ok\n"),
        Err(_) => push(text, at, b" bad\n"),
    }
}

// A line has at most 27 characters: three numbers of five digits, an ID of four, three spaces, and a verdict of five.
fn push_line(
    text: &mut [u8],
    at: usize,
    index: usize,
    offset: usize,
    id: u16,
    size: usize,
    verdict: Result<usize, Bad>,
) -> usize
    requires { (index < 100000) × (offset < 100000) × (size < 100000) × (at + 27 ≤ length text.old) }
    ensures { Printed text.old at (line index offset id size verdict) text.new result × (result ≤ at + 27) }
{
    let mut end = push_field(text, at, index as u64, 5);
    end = push_field(text, end, offset as u64, 5);
    end = push_hex4(text, end, id);
    end = push(text, end, b" ");
    end = push_decimal(text, end, size as u64, 5);
    push_verdict(text, end, verdict)
}

// The count is never trusted: at most 16,383 elements have a header that fits, and each line takes at most 27 bytes.
pub fn push_lines(b: &[u8], text: &mut [u8], at: usize) -> usize
    requires { (4 ≤ length b.now) × (length b.now ≤ 65536) × (at + 442341 ≤ length text.old) }
    ensures { Printed text.old at (lines b.now (count_of b.now) 0 4) text.new result × (result ≤ at + 442341) }
{
    let count = get32(b, 0) as usize;
    let mut end = at;
    let mut offset = 4;
    for index in 0..count {
        if b.len() - offset < 4 {
            return end;
        }
        let id = get16(b, offset);
        let size = get16(b, offset + 2) as usize;
        let verdict = judge(b, offset, THREAD_SET);
        end = push_line(text, end, index, offset, id, size, verdict);
        let Ok(next) = verdict else {
            return end;
        };
        offset = next;
    }
    end
}

fn push_refused(text: &mut [u8], at: usize, answer: Registers) -> usize
    requires { at + 83 ≤ length text.old }
    ensures { Printed text.old at (refused_line answer) text.new result × (result ≤ at + 83) }
{
    let mut end = push(text, at, b"answer ");
    end = push_decimal(text, end, answer.r3, 20);
    end = push(text, end, b" index ");
    end = push_decimal(text, end, answer.r4, 20);
    end = push(text, end, b" offset ");
    end = push_decimal(text, end, answer.r5, 20);
    push(text, end, b"\n")
}

pub fn push_answer(b: &[u8], text: &mut [u8], at: usize) -> usize
    requires { (4 ≤ length b.now) × (at + 83 ≤ length text.old) }
    ensures { Printed text.old at (last_line (first_bad thread_set b.now)) text.new result × (result ≤ at + 83) }
{
    match first_bad(b, THREAD_SET) {
        Ok(()) => push(text, at, b"answer 0\n"),
        Err(stop) => push_refused(
            text,
            at,
            registers_of(Call::SetState, refusal(Fault::from(stop))),
        ),
    }
}
