ghost use Rattle.std.specs.Prelude.{◌≡◌, ◌≤◌, ◌≤ℤ◌, pos, negsuc, Ok, IfOk};
ghost use Rattle.st_model.specs.{Values.{Ref, word}, Objects.place_of};
ghost use Rattle.st_model.specs.{Steps.{of_page, fetch_integer, integer_or_die}, inside.Calls.{Does, Reads, itself}};
ghost use Rattle.st_model.specs.{Machine.State, Table.Table};

use st_memory::Objects;
use st_model::{Dead, PageObject, Word};

/// The word of an object of the root page, which has the same name over all objects.
#[tactic(auto, using(crate::proofs::Doing::pages))]
pub fn page<O: Objects>(m: &O, object: PageObject) -> Word
    ensures page { Reads (of_page O.names object) word (O.table m.now) (Ok result) }
    ensures word { word result ≡ Ref (place_of object) }
{
    object.word()
}

/// The integer that a word must be.
#[tactic(auto, using(crate::proofs::SameWords::integers))]
pub fn integer_or_die(x: Word) -> Result<i32, Dead>
    ensures does { (s : State Table) → Does (integer_or_die (word x)) itself s result s }
    ensures low { IfOk result (λ n. negsuc 16383 ≤ℤ n) }
    ensures high { IfOk result (λ n. n ≤ℤ pos 16383) }
{
    if x.is_small() {
        Ok(x.integer())
    } else {
        Err(Dead::NotSmall)
    }
}

/// The integer that field i of o must hold.
#[tactic(auto, using(st_model::proofs::Runs::runs), unfolding(st_model::specs::Steps::fetch_integer))]
pub fn fetch_integer<O: Objects>(m: &O, o: Word, i: u32) -> Result<i32, Dead>
    ensures integer { Reads (fetch_integer O.names (word o) i) itself (O.table m.now) result }
    ensures low { IfOk result (λ n. negsuc 16383 ≤ℤ n) }
    ensures high { IfOk result (λ n. n ≤ℤ pos 16383) }
{
    let x = m.fetch_field(o, i)?;
    integer_or_die(x)
}
