ghost use Rattle.std.specs.Prelude.{◌≡◌, IfErr};
ghost use Rattle.st_model.specs.{Values.word, Table.bounded_table, Steps.{store_field, transfer}};
ghost use Rattle.st_model.specs.inside.Calls.{Changes, itself};
ghost use Rattle.st_memory.specs.inside.Places.{KeepsPlaces};

use crate::live::{live_fields, live_object, live_value};
use crate::memory::Memory;
use crate::transfer::copy_fields;
use st_model::{Dead, Word};

/// Stores x in field i of an object of kind Pointers. No body moves.
#[tactic(auto, using(st_model::proofs::Runs::runs, crate::proofs::Wide::bounded, crate::proofs::Wide::run_set_gone), unfolding(st_model::specs::Steps::store_field))]
pub fn store_live_field<M: Memory>(m: &mut M, o: Word, i: u32, x: Word) -> Result<(), Dead>
    ensures stores { Changes (store_field bounded_table (word o) i (word x)) itself
        (M.view m.old).objects (M.view m.old).head result (M.view m.new).objects }
    ensures dead { IfErr result (λ e. m.new ≡ m.old) }
    ensures held { (M.view m.new).held ≡ (M.view m.old).held }
    ensures head { (M.view m.new).head ≡ (M.view m.old).head }
    ensures places { KeepsPlaces (M.stands m.old) (M.stands m.new) }
{
    let object = live_object(m, o)?;
    if !m.kind(object).is_pointers() {
        return Err(Dead::Kind);
    }
    if i >= m.size(object) {
        return Err(Dead::Field);
    }
    match live_value(m, x) {
        Some(value) => {
            m.set_pointer(object, i, value);
            Ok(())
        }
        None => Err(Dead::Kind),
    }
}

/// Stores n fields of one object in fields of another, once all of them are fetched. No body moves.
#[tactic(auto, using(crate::proofs::Moving::moving))]
pub fn transfer_live_fields<M: Memory>(
    m: &mut M,
    n: u32,
    source: Word,
    from: u32,
    target: Word,
    to: u32,
) -> Result<(), Dead>
    ensures transfers { Changes (transfer bounded_table n (word source) from (word target) to)
        itself (M.view m.old).objects (M.view m.old).head result (M.view m.new).objects }
    ensures dead { IfErr result (λ e. m.new ≡ m.old) }
    ensures held { (M.view m.new).held ≡ (M.view m.old).held }
    ensures head { (M.view m.new).head ≡ (M.view m.old).head }
    ensures places { KeepsPlaces (M.stands m.old) (M.stands m.new) }
{
    if n == 0 {
        return Ok(());
    }
    let source = live_fields(m, source, n, from)?;
    let target = live_fields(m, target, n, to)?;
    copy_fields(m, n, source, from, target, to);
    Ok(())
}
