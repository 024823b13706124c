//! The form that an installation asks of a class's dictionary and of the symbol table.

ghost use Rattle.std.specs.Prelude.{◌≡◌, ◌-◌};
ghost use Rattle.st_model.specs.Values.{value};
ghost use Rattle.st_model.specs.Table.{table};
ghost use Rattle.st_model.specs.inside.Calls.{Reads, itself};
ghost use Rattle.st_scope.specs.Shapes.{is_power_of_two, check_dictionary, check_symbol_table, check_symbols};

use crate::reading::{check_fields, count_fields, fetch_field};
use st_memory::Memory;
use st_model::{Dead, Oop};

/// Whether a number is a power of two.
fn is_power_of_two(n: u32) -> bool
    ensures { result ≡ is_power_of_two n }
{
    n > 0 && n & (n - 1) == 0
}

/// The dictionary of a class has a tally, as many places as a power of two, and a method for each.
#[tactic(auto, using(st_model::proofs::Runs::runs, crate::proofs::Tallies::tallies), unfolding(crate::specs::Shapes::check_dictionary))]
pub fn check_dictionary<M: Memory>(m: &M, class: Oop) -> Result<(), Dead>
    ensures { Reads (check_dictionary table (value class)) itself (M.view m.now).objects result }
{
    let dictionary = fetch_field(m, class, 1)?;
    let fields = count_fields(m, dictionary)?;
    let places = fields.saturating_sub(2);
    if !is_power_of_two(places) {
        return Err(Dead::Places);
    }
    let tally = fetch_field(m, dictionary, 0)?;
    if !tally.is_small() {
        return Err(Dead::NotSmall);
    }
    let methods = fetch_field(m, dictionary, 1)?;
    check_fields(m, methods, places)
}

/// The symbol table is an association, whose value is of kind Pointers.
#[tactic(auto, using(st_model::proofs::Runs::runs), unfolding(crate::specs::Shapes::check_symbol_table))]
fn check_symbol_table<M: Memory>(m: &M, association: Oop) -> Result<(), Dead>
    ensures { let t = (M.view m.now).objects in
        Reads (check_symbol_table table (value association)) itself t result }
{
    check_fields(m, association, 2)?;
    let symbols = fetch_field(m, association, 1)?;
    check_fields(m, symbols, 0)
}

/// The symbol table, if the memory names one, has this form.
#[tactic(auto, using(crate::proofs::Tallies::symbol_tables))]
pub fn check_symbols<M: Memory>(m: &M) -> Result<(), Dead>
    ensures { let v = M.view m.now in Reads (check_symbols table v.head.symbols) itself v.objects result }
{
    let symbols = m.symbols();
    if symbols.0 == 0 {
        return Ok(());
    }
    check_symbol_table(m, symbols)
}
