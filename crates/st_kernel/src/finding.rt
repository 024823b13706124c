// What a start finds in an image.
ghost use Rattle.std.specs.Prelude.{◌≡◌, IfOk, true};
ghost use Rattle.st_model.specs.{Values.value, Steps.or_die, Table.{Table, table}, inside.Calls.Reads};
ghost use Rattle.st_model.specs.View.{IsKnown, is_live, table_of};
ghost use Rattle.st_scope.specs.Texts.{found};
ghost use Rattle.st_kernel.specs.Starting.{global_value, symbol_of, unary_method, method_of};
ghost use Rattle.st_model.specs.declared.dead.Dead.TheVariants as dead;

use st_install::symbol_named;
use st_lookup::find;
use st_memory::Memory;
use st_method::method_arguments;
use st_model::{Dead, Oop, Word};
use st_scope::{class_of, fetch_field, member_named};

/// The pointer of a table of names, where there is one.
#[tactic(auto, using(crate::proofs::Tables::tables))]
fn table_named(pointer: Oop) -> Result<Oop, Dead>
    ensures { (t : Table) → Reads (or_die dead.Field (table_of pointer.0)) value t result }
{
    if pointer.0 == 0 {
        Err(Dead::Field)
    } else {
        Ok(pointer)
    }
}

/// What was found, where anything was.
#[tactic(auto, using(st_model::proofs::Runs::runs))]
fn there(object: Option<Oop>) -> Result<Oop, Dead>
    ensures there { (t : Table) → Reads (or_die dead.Field (found object)) value t result }
{
    match object {
        Some(object) => Ok(object),
        None => Err(Dead::Field),
    }
}

/// The value of the first global of this name.
#[tactic(auto, using(st_model::proofs::Runs::runs), unfolding(crate::specs::Starting::global_value))]
pub(crate) fn global_value<M: Memory>(m: &M, name: &[u8]) -> Result<Oop, Dead>
    ensures value { let v = M.view m.now in
        Reads (global_value table v.head name.now) value v.objects result }
    ensures known { IfOk result (λ x. IsKnown (M.view m.now).objects (value x)) }
{
    let globals = table_named(m.globals())?;
    let association = there(member_named(m, globals, name)?)?;
    fetch_field(m, association, 1)
}

/// The Symbol of this text.
#[tactic(auto, using(st_model::proofs::Runs::runs), unfolding(crate::specs::Starting::symbol_of))]
fn symbol_of<M: Memory>(m: &M, text: &[u8]) -> Result<Oop, Dead>
    ensures { let v = M.view m.now in Reads (symbol_of table v.head text.now) value v.objects result }
{
    let association = table_named(m.symbols())?;
    let symbols = fetch_field(m, association, 1)?;
    there(symbol_named(m, symbols, text)?)
}

/// The method without arguments for a selector in a class, or in the nearest superclass that has one.
#[tactic(auto, using(st_model::proofs::Runs::runs, crate::proofs::Methods::arguments), unfolding(crate::specs::Starting::unary_method))]
fn unary_method<M: Memory>(m: &M, class: Oop, selector: Oop) -> Result<Oop, Dead>
    ensures { let t = (M.view m.now).objects in
        Reads (unary_method table (value class) (value selector)) value t result }
{
    let method = there(find(m, class, selector)?)?;
    if method_arguments(m, Word::from(method))? == 0 {
        Ok(method)
    } else {
        Err(Dead::Field)
    }
}

/// The method that an object has for the selector of this text.
#[tactic(auto, using(st_model::proofs::Runs::runs), unfolding(crate::specs::Starting::method_of))]
pub(crate) fn method_of<M: Memory>(m: &M, receiver: Oop, selector: &[u8]) -> Result<Oop, Dead>
    ensures { let v = M.view m.now in
        Reads (method_of table v.head (value receiver) selector.now) value v.objects result }
{
    let class = class_of(m, receiver)?;
    let symbol = symbol_of(m, selector)?;
    unary_method(m, class, symbol)
}
