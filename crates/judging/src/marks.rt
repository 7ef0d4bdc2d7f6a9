// Which elements of an exit were there, as marks in one word: a bit for each ID that the exit returns. Apart from the walk, which asks one
// question of them an element.
ghost use Rattle.std.specs.Prelude.{◌≡◌, ◌<◌, ℕ, ◌≢◌, length, slice_index, MatchOption};
ghost use Rattle.judging.specs.Private.{standing, unmarked, GoodIds};

// Where an ID stands among them. In most exits they follow one another, so that its distance from the first is tried before all are
// looked through.
fn place_of(ids: &[u16], id: u16) -> Option<usize>
    ensures { MatchOption result ((k : ℕ) → k < length ids.now → slice_index ids.now k ≢ id) (λ j. (j < length ids.now) × (slice_index ids.now j ≡ id)) }
{
    let first = *ids.first()?;
    if first <= id {
        let guess = (id - first) as usize;
        if guess < ids.len() && ids[guess] == id {
            return Some(guess);
        }
    }
    ids.iter().position(|x| *x == id)
}

// The place of an ID that is one of them and was not there before.
#[tactic(auto, using(crate::proofs::Marked::by_place))]
pub fn new_place(ids: &[u16], seen: u64, id: u16) -> Option<usize>
    requires { GoodIds ids.now }
    ensures { result ≡ standing ids.now seen id 0 }
{
    let j = place_of(ids, id)?;
    if (seen >> j) % 2 == 1 {
        return None;
    }
    Some(j)
}

// The first ID that has no mark, which is the smallest.
pub fn first_unmarked(ids: &[u16], seen: u64) -> Option<u16>
    requires { GoodIds ids.now }
    ensures { result ≡ unmarked ids.now seen }
{
    for (j, id) in ids.iter().enumerate() {
        if (seen >> j) % 2 == 0 {
            return Some(*id);
        }
    }
    None
}
