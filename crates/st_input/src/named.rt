ghost use Rattle.std.specs.Prelude.{◌≡◌, true, false, IfSome, IfNone};
ghost use Rattle.st_model.specs.Values.{value, word};
ghost use Rattle.st_model.specs.View.{is_live};

use st_memory::{Memory, live_value};
use st_model::{Oop, Word};

/// The object that a word names, where one is there.
#[tactic(auto, using(crate::proofs::Done::named_objects))]
pub fn object_named<M: Memory>(m: &M, named: Word) -> Option<Oop>
    ensures same { IfSome result (λ o. value o ≡ word named) }
    ensures live { IfSome result (λ o. is_live (M.view m.now).objects (value o) ≡ true) }
    ensures gone { IfNone result (is_live (M.view m.now).objects (word named) ≡ false) }
{
    let found = live_value(m, named)?;
    if found.is_small() { None } else { Some(found) }
}
