// The six lent words of marks. Mark i is a valid mark below 192, a changed one from there. `caches` tells whether a cache is
// well formed; what both mean is defined here.
ghost use Rattle.std.specs.Prelude.{◌≡◌, ◌+◌, ◌*◌, ◌≤◌, ◌<◌, length};
ghost use Rattle.store.specs.Search.{tally};
ghost use Rattle.l1.specs.Private.{is_changed, top_mark, behind, MarkFrom};
ghost use Rattle.l1.specs.Marks.{is_marked, with_mark};

use super::Mark;

// A call begins by a test that the lent words are so many.
pub type Marks = [u64; 6];

pub fn is_marked(m: &Marks, i: usize) -> bool
    requires { i < 384 }
    ensures { result ≡ is_marked m.now i }
{
    (m[i / 64] >> (63 - i % 64)) % 2 == 1
}

pub fn set_mark(m: &mut Marks, i: usize)
    requires { i < 384 }
    ensures { m.new ≡ with_mark m.old i }
{
    let w = i / 64;
    m[w] |= 1u64 << (63 - i % 64);
}

// The first mark of what is left of a word; `start` is the word's first mark.
fn mark_in(start: usize, left: u64) -> Mark
    requires { (start < 384) × (0 < left) }
    ensures { result ≡ top_mark start left }
{
    let zeros = u64::leading_zeros(left) as usize;
    Mark {
        at: start + zeros,
        left: left ^ (1u64 << (63 - zeros)),
    }
}

// The first mark from word k on.
pub fn mark_from(m: &Marks, k: usize) -> Option<Mark>
    requires { k ≤ 6 }
    ensures { MarkFrom m.now (64 * k) result }
{
    for i in k..6 {
        let word = m[i];
        if word != 0 {
            return Some(mark_in(64 * i, word));
        }
    }
    None
}

// The one after it. What is left of the word stays in a register: the next turn does not wait for a load.
pub fn next_mark(m: &Marks, x: Mark) -> Option<Mark>
    requires { (x.at < 384) × (x.left ≡ behind m.now x.at) }
    ensures { MarkFrom m.now (x.at + 1) result }
{
    if x.left != 0 {
        return Some(mark_in(x.at - x.at % 64, x.left));
    }
    mark_from(m, x.at / 64 + 1)
}

// How many changed marks there are.
#[tactic(auto, using(crate::proofs::Words::count_words))]
pub fn changed_count(m: &Marks) -> u32
    ensures { result ≡ tally (is_changed m.now) 192 }
{
    u64::count_ones(m[3]) + u64::count_ones(m[4]) + u64::count_ones(m[5])
}
