ghost use Rattle.std.specs.Prelude.{◌≡◌, ◌<◌, ◌≤◌, ◌+◌, ◌-◌};
ghost use Rattle.st_model.specs.Values.{word};
ghost use Rattle.st_model.specs.Lookup.{method_in_class, find};
ghost use Rattle.st_model.specs.inside.Calls.{Reads};
ghost use Rattle.st_lookup.specs.inside.Places.{found_word};

use crate::places::search_dictionary;
use crate::reading::Reading;
use st_model::{Dead, PageObject, Word};

/// The method for the selector in the class itself, whose dictionary must have places.
#[tactic(auto, using(st_model::proofs::Runs::runs, st_model::proofs::Runs::tests), unfolding(st_model::specs::Lookup::method_in_class))]
fn method_in_class<O: Reading>(m: &O, class: Word, selector: Word) -> Result<Option<Word>, Dead>
    ensures { Reads (method_in_class O.names (word class) (word selector)) found_word (O.table m.now) result }
{
    let dictionary = m.field(class, 1)?;
    let fields = m.count(dictionary)?;
    if fields <= 2 {
        return Err(Dead::Places);
    }
    search_dictionary(m, dictionary, selector, fields - 2)
}

/// The method for the selector in the class, or in the nearest superclass that has one; none where the chain ends in nil
/// without one. Dead where a class or a dictionary isn't what it should be, where a dictionary has no places, where what
/// was found is no method, and at the class of number 32768. It serves rows of bytecodes, which run over a memory or a
/// draft; `find` is for all others.
pub fn look_up<O: Reading>(m: &O, class: Word, selector: Word) -> Result<Option<Word>, Dead>
    ensures { Reads (find O.names (word class) (word selector)) found_word (O.table m.now) result }
{
    let nil = PageObject::NilObject.word();
    let mut class = class;
    let mut left = 32767_u32;
    while !class.same(nil) {
        if left == 0 {
            return Err(Dead::Chain);
        }
        if let Some(method) = method_in_class(m, class, selector)? {
            return Ok(Some(method));
        }
        class = m.field(class, 0)?;
        left -= 1;
    }
    Ok(None)
}
