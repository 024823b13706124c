ghost use Rattle.std.specs.{Prelude.{◌≡◌, ◌+◌, ◌*◌, ◌<◌, ◌≤◌, IfOk}, Option.option_map};
ghost use Rattle.st_model.specs.{Values.word, Pixels.row_words};
ghost use Rattle.st_model.specs.{BitBlt.{read_form, fetch_form, fetch_halftone}, inside.Calls.Reads};
ghost use Rattle.st_bitblt.specs.inside.Reading.{IsForm, IsFormIfAny, HasPixels, HasSixteen, form_in};

use crate::numbers::{check_words, fetch_positive};
use st_memory::Objects;
use st_model::{Dead, Word};

/// A Form: the object of kind Words that has its pixels, how many pixels a row has, and how many rows there are.
#[derive(Clone, Copy)]
pub struct Form {
    pub bits: Word,
    pub width: u32,
    pub height: u32,
}

/// How many words a row of so many pixels has.
pub fn row_words(width: u32) -> u32
    requires { width < 65536 }
    ensures { result ≡ row_words width }
{
    (width + 15) / 16
}

/// Reads a Form.
#[tactic(auto, using(st_model::proofs::Runs::runs), unfolding(st_model::specs::BitBlt::read_form))]
pub fn read_form<O: Objects>(m: &O, o: Word) -> Result<Form, Dead>
    ensures does { Reads (read_form O.names (word o)) (form_in (O.table m.now)) (O.table m.now) result }
    ensures form { IfOk result (IsForm (O.table m.now)) }
    ensures bits { IfOk result (λ f. HasPixels O.names (O.table m.now) (word o) f.bits) }
{
    let bits = m.fetch_field(o, 0)?;
    let width = fetch_positive(m, o, 1)?;
    let height = fetch_positive(m, o, 2)?;
    check_words(m, bits, height * row_words(width))?;
    Ok(Form {
        bits,
        width,
        height,
    })
}

/// The Form in a field of a BitBlt, or none where nil is there.
#[tactic(auto, using(st_model::proofs::Runs::runs, crate::proofs::Readings::forms), unfolding(st_model::specs::BitBlt::fetch_form, st_model::specs::BitBlt::read_form_if_any))]
pub fn fetch_form<O: Objects>(m: &O, bit_blt: Word, i: u32) -> Result<Option<Form>, Dead>
    ensures does { Reads (fetch_form O.names (word bit_blt) i) (option_map (form_in (O.table m.now)))
        (O.table m.now) result }
    ensures form { IfOk result (IsFormIfAny (O.table m.now)) }
{
    let o = m.fetch_field(bit_blt, i)?;
    if o.same(Word::NIL) {
        return Ok(None);
    }
    Ok(Some(read_form(m, o)?))
}

/// The halftone of a BitBlt, if any.
#[tactic(auto, using(st_model::proofs::Runs::runs, st_model::proofs::Runs::tests), unfolding(st_model::specs::BitBlt::fetch_halftone))]
pub fn fetch_halftone<O: Objects>(m: &O, bit_blt: Word) -> Result<Option<Form>, Dead>
    ensures does { Reads (fetch_halftone O.names (word bit_blt)) (option_map (form_in (O.table m.now)))
        (O.table m.now) result }
    ensures form { IfOk result (IsFormIfAny (O.table m.now)) }
    ensures sixteen { IfOk result (HasSixteen (O.table m.now)) }
{
    let found = fetch_form(m, bit_blt, 2)?;
    if let Some(form) = found {
        check_words(m, form.bits, 16)?;
    }
    Ok(found)
}
