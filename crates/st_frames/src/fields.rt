ghost use Rattle.std.specs.Prelude.{◌≡◌, ◌≤◌, IfOk, OnErr};
ghost use Rattle.st_model.specs.{Values.value, View.IsKnown, Table.table};
ghost use Rattle.st_model.specs.{Steps.{fetch_field, store_field, count_fields}, inside.Calls.{Reads, itself}};
ghost use Rattle.st_frames.specs.inside.Shown.{FrameDoes};

use crate::frame::Frame;
use st_memory::Memory;
use st_model::{Dead, Oop};

/// Field i of o. Dead where o is no object of kind Pointers with that field.
#[tactic(auto, using(st_model::proofs::Runs::runs), unfolding(st_model::specs::Steps::fetch_field))]
pub fn fetch_field<M: Memory>(m: &M, o: Oop, i: u32) -> Result<Oop, Dead>
    requires { IsKnown (M.view m.now).objects (value o) }
    ensures fetches { Reads (fetch_field table (value o) i) value (M.view m.now).objects result }
    ensures known { IfOk result (λ x. IsKnown (M.view m.now).objects (value x)) }
{
    if o.is_small() {
        return Err(Dead::Small);
    }
    if !m.kind(o).is_pointers() {
        return Err(Dead::Kind);
    }
    if i < m.size(o) {
        Ok(m.pointer(o, i))
    } else {
        Err(Dead::Field)
    }
}

/// Stores x in field i of o. Dead, with nothing stored, where o is no object of kind Pointers with that field.
#[tactic(auto, using(st_model::proofs::Runs::runs), unfolding(st_model::specs::Steps::store_field))]
pub fn store_field<M: Memory>(m: &mut M, f: &Frame, o: Oop, i: u32, x: Oop) -> Result<(), Dead>
    requires object { IsKnown (M.view m.old).objects (value o) }
    requires known { IsKnown (M.view m.old).objects (value x) }
    ensures stores { FrameDoes (store_field table (value o) i (value x))
        itself (M.view m.old) f.now result (M.view m.new) f.now }
    ensures held { (M.view m.new).held ≡ (M.view m.old).held }
    ensures err { OnErr result (M.view m.new ≡ M.view m.old) }
{
    if o.is_small() {
        return Err(Dead::Small);
    }
    if !m.kind(o).is_pointers() {
        return Err(Dead::Kind);
    }
    if i < m.size(o) {
        m.set_pointer(o, i, x);
        Ok(())
    } else {
        Err(Dead::Field)
    }
}

/// How many fields o has. Dead where it is no object of kind Pointers.
#[tactic(auto, using(st_model::proofs::Runs::runs), unfolding(st_model::specs::Steps::count_fields))]
pub fn count_fields<M: Memory>(m: &M, o: Oop) -> Result<u32, Dead>
    requires { IsKnown (M.view m.now).objects (value o) }
    ensures count { Reads (count_fields table (value o)) itself (M.view m.now).objects result }
    ensures small { IfOk result (λ n. n ≤ 131066) }
{
    if o.is_small() {
        return Err(Dead::Small);
    }
    if m.kind(o).is_pointers() {
        Ok(m.size(o))
    } else {
        Err(Dead::Kind)
    }
}
