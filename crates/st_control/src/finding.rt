ghost use Rattle.std.specs.Prelude.{◌≡◌};
ghost use Rattle.st_model.specs.Values.{word};
ghost use Rattle.st_model.specs.Lookup.{find};
ghost use Rattle.st_lookup.specs.inside.Places.{found_word};
ghost use Rattle.st_control.specs.inside.AtOnce.{AreStill};
ghost use Rattle.st_frames.specs.inside.Rows.{RowDoes, Takes};

use st_frames::Registers;
use st_lookup::look_up;
use st_memory::Objects;
use st_model::{Dead, Word};

/// The method for the selector in the class, or in the nearest superclass that has one. What is found is remembered.
#[inline(always)]
#[tactic(auto, using(st_frames::proofs::Doing::rows))]
pub fn find_method<O: Objects>(
    m: &mut O,
    r: &Registers,
    class: Word,
    selector: Word,
) -> Result<Option<Word>, Dead>
    ensures does { RowDoes O.Objects.own (find O.names (word class) (word selector))
        found_word m.old r.now result m.new r.now }
    ensures takes { Takes O.Objects.own 0 m.old m.new }
    ensures still { AreStill O.Objects.own m.old m.new }
{
    if let Some(method) = m.remembered(class, selector) {
        return Ok(Some(method));
    }
    match look_up(m, class, selector)? {
        Some(method) => {
            m.remember(class, selector, method);
            Ok(Some(method))
        }
        None => Ok(None),
    }
}
