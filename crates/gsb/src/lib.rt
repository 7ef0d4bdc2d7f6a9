// The guest state buffer: one element judged, and one written. `walk` judges all that are counted; what the three mean is
// defined here.
#![tactic(auto)]

mod framing;
mod joining;
mod judging;
mod lookups;
mod walk;
mod write;

ghost use Rattle.answer.specs.declared.Fault.TheVariants.{Element};
ghost use Rattle.std.specs.Prelude.{◌≡◌};

use answer::{Bad, Fault, Place};
pub use joining::join;
pub use judging::{bad_length, judge};
pub use lookups::{Found, lookup, lookup_value};
pub use walk::first_bad;
pub use write::put_element;

// The element at which a walk stopped: what is wrong with it, and where it stands.
#[derive(Clone, Copy)]
pub struct BadElement {
    pub bad: Bad,
    pub place: Place,
}

impl From<BadElement> for Fault {
    ghost from_gives = { λ e fault. fault ≡ Element e.bad e.place };

    fn from(e: BadElement) -> Fault {
        Fault::Element(e.bad, e.place)
    }
}
