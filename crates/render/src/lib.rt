// The listing of a guest state buffer, rendered into a lent text buffer.
#![tactic(auto)]

mod lines;

ghost use Rattle.std.specs.Prelude.{◌≡◌, length};
ghost use Rattle.render.specs.Listing.{RenderOutcome, rendered, Within};

use gsb::bad_length;
use lines::{push_answer, push_first, push_lines};
use text::push;

// Room for the longest listing: at most 16,383 lines of 27 characters, the first and the last.
pub const ROOM: usize = 442496;

// The listing's length, if the lent buffer has that room.
pub fn render(b: &[u8], text: &mut [u8]) -> Option<usize>
    ensures fact { ◌≡◌ {A = RenderOutcome} (record { result = result; text = text.new }) (rendered b.now text.old) }
    ensures within { Within result (length text.new) }
{
    if text.len() < ROOM {
        return None;
    }
    if bad_length(b) {
        return Some(push(text, 0, b"answer 5\n"));
    }
    let first = push_first(b, text, 0);
    let then = push_lines(b, text, first);
    Some(push_answer(b, text, then))
}
