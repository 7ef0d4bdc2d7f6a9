// A small store written as a large one.
ghost use Rattle.std.specs.Prelude.{◌≡◌, []};
ghost use Rattle.admission.specs.Refusals.{Outcome};
ghost use Rattle.l0.specs.Calls.{convert};

use answer::{Answer, Fault, refusal, success};
use store::{converted, large_layout, small_layout, well_formed};

// A large store is no source.
pub fn convert(source: &[u8], target: &mut [u8]) -> Answer
    ensures { ◌≡◌ {A = Outcome} (record { answer = result; store = target.new; buffer = [] }) (convert source.now target.old) }
{
    let l = small_layout();
    if source.len() != l.size {
        return refusal(Fault::Store);
    }
    if !well_formed(source, l) {
        return refusal(Fault::Store);
    }
    let m = large_layout();
    if target.len() != m.size {
        return refusal(Fault::Length);
    }
    converted(source, l, target, m);
    success(0)
}
