//! Fields and bytes of objects, by pointers.

ghost use Rattle.std.specs.Prelude.{◌≡◌, ◌≢◌, ◌≤◌, ◌&&◌, true, false, IfOk};
ghost use Rattle.st_model.specs.{Values.value, Objects.is_bytes, Table.table};
ghost use Rattle.st_model.specs.{Steps.{object, fetch_field, count_fields, class_of}, inside.Calls.{Reads, itself}};
ghost use Rattle.st_model.specs.View.{IsKnown, is_live, object_of};
ghost use Rattle.st_scope.specs.{Tables.{check_fields, is_text}, Texts.text_at};

use st_memory::Memory;
use st_model::{Dead, Kind, Oop};

/// The object that a pointer names is there.
#[tactic(auto, using(st_model::proofs::Runs::runs))]
pub fn check_live<M: Memory>(m: &M, o: Oop) -> Result<(), Dead>
    ensures object { let t = (M.view m.now).objects in
        Reads (object table (value o)) (λ (u : Unit). object_of t (value o)) t result }
    ensures live { IfOk result (λ u. is_live (M.view m.now).objects (value o) ≡ true) }
{
    if m.live(o) {
        Ok(())
    } else if o.is_small() {
        Err(Dead::Small)
    } else {
        Err(Dead::Kind)
    }
}

/// Field i of an object of kind Pointers.
#[tactic(auto, using(st_model::proofs::Runs::runs), unfolding(st_model::specs::Steps::fetch_field))]
pub fn fetch_field<M: Memory>(m: &M, o: Oop, i: u32) -> Result<Oop, Dead>
    ensures fetches { Reads (fetch_field table (value o) i) value (M.view m.now).objects result }
    ensures known { IfOk result (λ x. IsKnown (M.view m.now).objects (value x)) }
    ensures live { IfOk result (λ x. is_live (M.view m.now).objects (value o) ≡ true) }
{
    check_live(m, o)?;
    if !m.kind(o).is_pointers() {
        return Err(Dead::Kind);
    }
    if i < m.size(o) {
        Ok(m.pointer(o, i))
    } else {
        Err(Dead::Field)
    }
}

/// How many fields an object of kind Pointers has.
#[tactic(auto, using(st_model::proofs::Runs::runs), unfolding(st_model::specs::Steps::count_fields))]
pub fn count_fields<M: Memory>(m: &M, o: Oop) -> Result<u32, Dead>
    ensures counts { Reads (count_fields table (value o)) itself (M.view m.now).objects result }
    ensures small { IfOk result (λ n. n ≤ 131066) }
{
    check_live(m, o)?;
    if m.kind(o).is_pointers() {
        Ok(m.size(o))
    } else {
        Err(Dead::Kind)
    }
}

/// The class of an object.
#[tactic(auto, using(st_model::proofs::Runs::runs, crate::proofs::ClassesOf::classes))]
pub fn class_of<M: Memory>(m: &M, o: Oop) -> Result<Oop, Dead>
    ensures class { Reads (class_of table (value o)) value (M.view m.now).objects result }
    ensures known { IfOk result (λ x. IsKnown (M.view m.now).objects (value x)) }
{
    if o.is_small() {
        return Ok(Oop(12));
    }
    check_live(m, o)?;
    Ok(m.class_of(o))
}

/// An object of kind Pointers has so many fields or more.
#[tactic(auto, using(st_model::proofs::Runs::runs, st_model::proofs::Runs::tests), unfolding(crate::specs::Tables::check_fields))]
pub fn check_fields<M: Memory>(m: &M, o: Oop, least: u32) -> Result<(), Dead>
    ensures { Reads (check_fields table (value o) least) itself (M.view m.now).objects result }
{
    let n = count_fields(m, o)?;
    if least <= n { Ok(()) } else { Err(Dead::Field) }
}

/// Whether an object of this kind has bytes alone.
pub fn is_bytes(kind: Kind) -> bool
    ensures { result ≡ is_bytes kind }
{
    match kind {
        Kind::Bytes => true,
        Kind::Pointers | Kind::Words | Kind::Method => false,
    }
}

/// Whether the bytes of an object are these.
#[tactic(auto, using(st_memory::proofs::Bodies::bodies))]
fn has_bytes<M: Memory>(m: &M, o: Oop, text: &[u8]) -> bool
    requires live { is_live (M.view m.now).objects (value o) ≡ true }
    requires kind { is_bytes (object_of (M.view m.now).objects (value o)).kind ≡ true }
    ensures same { result ≡ true → (object_of (M.view m.now).objects (value o)).units ≡ text.now }
    ensures other { result ≡ false → (object_of (M.view m.now).objects (value o)).units ≢ text.now }
{
    let size = m.size(o);
    if size as usize != text.len() {
        return false;
    }
    for i in 0..size {
        if m.byte(o, i) != text[i as usize] {
            return false;
        }
    }
    true
}

/// Whether it is an object of kind Bytes with these bytes.
#[tactic(auto, using(crate::proofs::TextsAt::texts))]
pub fn is_text<M: Memory>(m: &M, o: Oop, text: &[u8]) -> bool
    ensures { result ≡ is_text text.now (text_at (M.view m.now).objects (value o)) }
{
    if !m.live(o) {
        return false;
    }
    if !is_bytes(m.kind(o)) {
        return false;
    }
    has_bytes(m, o, text)
}
