// Records played on a store: each one's call made and its line written, window by window.
ghost use Rattle.std.specs.Prelude.{◌≡◌, not, ◌&&◌, ◌||◌, cond, [], ltb, ◌+◌, ◌*◌, ◌/◌, ◌≤◌, ◌<◌, length, Some};
ghost use Rattle.octets.specs.Bytes.{bytes_at, put};
ghost use Rattle.text.specs.Text.{Printed};
ghost use Rattle.store.specs.Layout.{layout_of};
ghost use Rattle.records.specs.Record.{head_at, record_at, record_length};
ghost use Rattle.records.specs.Replay.{Turn, turn, bad_line, played_all, refuses, WindowOutcome, windowed, replayed, Within};
ghost use Rattle.records.specs.Private.{Stopped, stopped, Ready, is_unread_bad};

use super::lines::{push_bad, push_record};
use super::reading::read_head;
use super::{Head, Unread};
use answer::{Registers, registers_of};
use l0::{call, kind_name};
use octets::copy;

// A window that has room behind every record that is cut: the longest has 262,173 bytes.
pub const WINDOW: usize = 266240;

// Room for the lines of as many records as a window holds, and for the last line.
pub const ROOM: usize = 738740;

// The most bytes that a record's data has, and that a run's output is registered with.
const DATA: usize = 131071;

const OUTPUT: usize = 65536;

// What a window left: how many bytes wait at its front for more, how much text was written, the number and the offset in the input of
// the record that those bytes begin, and whether more input is to be read.
#[derive(Clone, Copy)]
pub struct Step {
    pub kept: usize,
    pub written: usize,
    pub number: u64,
    pub offset: u64,
    pub more: bool,
}

// Where records end: behind the last that was played, whose lines end at `end`; and why none follows.
#[derive(Clone, Copy)]
pub struct Stop {
    pub at: usize,
    pub number: u64,
    pub end: usize,
    pub unread: Unread,
}

// The call of the record at `at`. Its data is copied, since get state writes it; the output is longer than any that is registered.
fn play(
    store: &mut [u8],
    bytes: &[u8],
    at: usize,
    h: Head,
    data: &mut [u8],
    output: &mut [u8],
) -> Registers
    requires { (h ≡ head_at bytes.now at) × (at + record_length h ≤ length bytes.now) × (h.data_len ≤ length «data».old) × (65536 ≤ length output.old) }
    ensures { ◌≡◌ {A = Turn} (record { registers = result; store = store.new }) (turn (layout_of store.old) store.old (record_at bytes.now at)) }
{
    let from = at + 31;
    let n = h.data_len;
    let then = from + n;
    let end = then + h.effect_len;
    copy(bytes, from, data, 0, n);
    let answer = call(
        store,
        h.kind,
        h.flags,
        h.guest,
        h.number,
        h.exit_reason,
        &mut data[..n],
        output,
        &bytes[then..end],
    );
    registers_of(kind_name(h.kind), answer)
}

// A record of at least 31 bytes has a line of at most 86.
fn play_all(
    store: &mut [u8],
    bytes: &[u8],
    number: u64,
    data: &mut [u8],
    output: &mut [u8],
    text: &mut [u8],
) -> Stop
    requires { (131071 ≤ length «data».old) × (65536 ≤ length output.old) × (86 * (length bytes.now / 31 + 2) ≤ length text.old) × (number + length bytes.now < 18446744073709551616) }
    ensures fact { ◌≡◌ {A = Stopped} (record { stop = result; store = store.new; text = text.new }) (stopped bytes.now text.old 0 (played_all (layout_of store.old) store.old bytes.now number)) }
    ensures at_in_bounds { (result.at ≤ length bytes.now) × (31 * result.end ≤ 86 * result.at) }
{
    let mut at = 0;
    let mut end = 0;
    let mut n = number;
    loop {
        match read_head(bytes, at) {
            Ok(h) => {
                let answer = play(store, bytes, at, h, data, output);
                end = push_record(text, end, n, h.kind, answer);
                at = at + 31 + h.data_len + h.effect_len;
                n += 1;
            }
            Err(unread) => {
                return Stop {
                    at,
                    number: n,
                    end,
                    unread,
                };
            }
        }
    }
}

// No sum that might not fit is made before the numbers that it has are tested.
#[tactic(auto, unfolding(crate::specs::Replay::refuses))]
fn is_ready(window: usize, filled: usize, number: u64, offset: u64, text: usize) -> bool
    ensures { result ≡ not (refuses window filled number offset text) }
{
    filled <= window
        && filled / 31 + 2 <= text / 86
        && number <= offset
        && offset <= u64::MAX - filled as u64
}

// What is no record, whatever comes, and what is cut where the input has ended.
fn is_stop(unread: Unread, ended: bool, at: usize, filled: usize) -> bool
    ensures { result ≡ (is_unread_bad unread || (ended && ltb at filled)) }
{
    matches!(unread, Unread::Bad) || ended && at < filled
}

fn push_end(text: &mut [u8], at: usize, stops: bool, offset: u64) -> usize
    requires { at + 38 ≤ length text.old }
    ensures { Printed text.old at (cond stops (bad_line offset) []) text.new result × (result ≤ length text.new) }
{
    if stops {
        push_bad(text, at, offset)
    } else {
        at
    }
}

// `replay` once its numbers are known to fit.
fn replay_window(
    store: &mut [u8],
    window: &mut [u8],
    filled: usize,
    ended: bool,
    number: u64,
    offset: u64,
    text: &mut [u8],
    data: &mut [u8],
    output: &mut [u8],
) -> Step
    requires { Ready (length window.old) filled number offset (length text.old) × (131071 ≤ length «data».old) × (65536 ≤ length output.old) }
    ensures fact { ◌≡◌ {A = WindowOutcome} (record { result = Some result; store = store.new; window = window.new; text = text.new }) (windowed ended offset (bytes_at window.old 0 filled) window.old text.old (played_all (layout_of store.old) store.old (bytes_at window.old 0 filled) number)) }
    ensures kept_in_bounds { (result.kept ≤ length window.new) × (result.written ≤ length text.new) }
{
    let s = play_all(store, &window[..filled], number, data, output, text);
    let next = offset + s.at as u64;
    let stops = is_stop(s.unread, ended, s.at, filled);
    let written = push_end(text, s.end, stops, next);
    window.copy_within(s.at..filled, 0);
    let more = !(stops || ended);
    Step {
        kept: filled - s.at,
        written,
        number: s.number,
        offset: next,
        more,
    }
}

// The records of the window's first `filled` bytes played, of which the first has this number and begins at this offset of the input.
// `ended` says that no byte follows. What a record that is cut has of them is moved to the window's front.
pub fn replay(
    store: &mut [u8],
    window: &mut [u8],
    filled: usize,
    ended: bool,
    number: u64,
    offset: u64,
    text: &mut [u8],
) -> Option<Step>
    ensures fact { ◌≡◌ {A = WindowOutcome} (record { result = result; store = store.new; window = window.new; text = text.new }) (replayed (layout_of store.old) store.old window.old filled ended number offset text.old) }
    ensures within { Within result (length window.new) (length text.new) }
{
    if !is_ready(window.len(), filled, number, offset, text.len()) {
        return None;
    }
    let mut data = [0u8; DATA];
    let mut output = [0u8; OUTPUT];
    Some(replay_window(
        store,
        window,
        filled,
        ended,
        number,
        offset,
        text,
        &mut data,
        &mut output,
    ))
}
