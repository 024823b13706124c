ghost use Rattle.std.specs.Prelude.{◌≡◌, true, IfOk, IfSome};
ghost use Rattle.st_model.specs.{Values.{value, word}, Table.table, Lookup.find, inside.Calls.Reads, View.is_live};
ghost use Rattle.st_lookup.specs.inside.Places.{found, found_word};

use crate::class::look_up;
use st_memory::{Memory, Objects, live_value};
use st_model::{Dead, Oop, Word};

/// The method that is remembered for the selector in the class, or else what the search comes to.
fn recall<O: Objects>(m: &O, class: Word, selector: Word) -> Result<Option<Word>, Dead>
    ensures { Reads (find O.names (word class) (word selector)) found_word (O.table m.now) result }
{
    match m.remembered(class, selector) {
        Some(method) => Ok(Some(method)),
        None => look_up(m, class, selector),
    }
}

/// The method for the selector in the class, or in the nearest superclass that has one; none where the chain ends in nil
/// without one. Dead where `look_up` is. It asks the memory first what it remembers. It serves whoever has a memory and
/// pointers and is no row of a bytecode.
pub fn find<M: Memory>(m: &M, class: Oop, selector: Oop) -> Result<Option<Oop>, Dead>
    ensures finds { Reads (find table (value class) (value selector)) found (M.view m.now).objects result }
    ensures known { IfOk result (λ method.
        IfSome method (λ o. is_live (M.view m.now).objects (value o) ≡ true)) }
{
    match recall(m, Word::from(class), Word::from(selector))? {
        Some(method) => Ok(live_value(m, method)),
        None => Ok(None),
    }
}
