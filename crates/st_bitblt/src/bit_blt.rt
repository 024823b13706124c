ghost use Rattle.std.specs.Prelude.{◌≡◌, ◌<◌, IfOk};
ghost use Rattle.st_model.specs.Values.{word};
ghost use Rattle.st_model.specs.BitBlt.{fetch_rule, read_copy, fetch_destination};
ghost use Rattle.st_model.specs.inside.Calls.{Reads, itself};
ghost use Rattle.st_bitblt.specs.inside.Reading.{HasBits, IsBitBlt, IsForm, copy_in, form_in};

use crate::direction::{Direction, fetch_direction};
use crate::form::{Form, fetch_form, fetch_halftone, read_form};
use crate::numbers::fetch_positive;
use st_memory::Objects;
use st_model::{Dead, Word};

/// What a BitBlt tells to copy.
#[derive(Clone, Copy)]
pub struct BitBlt {
    pub destination: Form,
    pub source: Option<Form>,
    pub halftone: Option<Form>,
    pub rule: u32,
    pub across: Direction,
    pub down: Direction,
}

/// The destination of a BitBlt.
#[tactic(auto, using(st_model::proofs::Runs::runs), unfolding(st_model::specs::BitBlt::fetch_destination))]
fn fetch_destination<O: Objects>(m: &O, bit_blt: Word) -> Result<Form, Dead>
    ensures does { Reads (fetch_destination O.names (word bit_blt)) (form_in (O.table m.now))
        (O.table m.now) result }
    ensures form { IfOk result (IsForm (O.table m.now)) }
    ensures bits { IfOk result (λ f. HasBits O.names (O.table m.now) (word bit_blt) f.bits) }
{
    let o = m.fetch_field(bit_blt, 0)?;
    read_form(m, o)
}

/// The rule of a BitBlt, from 0 to 15.
#[tactic(auto, using(st_model::proofs::Runs::runs, st_model::proofs::Runs::tests), unfolding(st_model::specs::BitBlt::fetch_rule))]
fn fetch_rule<O: Objects>(m: &O, bit_blt: Word) -> Result<u32, Dead>
    ensures does { Reads (fetch_rule O.names (word bit_blt)) itself (O.table m.now) result }
    ensures small { IfOk result (λ n. n < 16) }
{
    let rule = fetch_positive(m, bit_blt, 3)?;
    if rule < 16 {
        Ok(rule)
    } else {
        Err(Dead::Field)
    }
}

/// Reads a BitBlt and its Forms. The error is the cause by which reading dies: a field is missing or has another kind of
/// value, a number is out of its range, or a Form has too few words.
#[tactic(auto, using(st_model::proofs::Runs::runs), unfolding(st_model::specs::BitBlt::read_copy))]
pub fn read_bit_blt<O: Objects>(m: &O, bit_blt: Word) -> Result<BitBlt, Dead>
    ensures does { Reads (read_copy O.names (word bit_blt)) (copy_in (O.table m.now)) (O.table m.now) result }
    ensures is { IfOk result (IsBitBlt (O.table m.now)) }
    ensures bits { IfOk result (λ b. HasBits O.names (O.table m.now) (word bit_blt) b.destination.bits) }
{
    let destination = fetch_destination(m, bit_blt)?;
    let source = fetch_form(m, bit_blt, 1)?;
    let halftone = fetch_halftone(m, bit_blt)?;
    let rule = fetch_rule(m, bit_blt)?;
    let across = fetch_direction(m, bit_blt, 0)?;
    let down = fetch_direction(m, bit_blt, 1)?;
    Ok(BitBlt {
        destination,
        source,
        halftone,
        rule,
        across,
        down,
    })
}
