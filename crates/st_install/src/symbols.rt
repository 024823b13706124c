//! Symbols that are there.

ghost use Rattle.std.specs.Prelude.{◌≡◌, Ok};
ghost use Rattle.st_model.specs.{Values.value, Table.table, inside.Calls.{Reads, itself}};
ghost use Rattle.st_model.specs.{declared.page.PageObject.TheVariants.SymbolClass, Primitives.check_class};
ghost use Rattle.st_install.specs.Symbols.{is_symbol, symbol_named};
ghost use Rattle.st_scope.specs.Texts.{found};

use st_memory::Memory;
use st_model::{Dead, Oop};
use st_scope::{class_of, count_fields, fetch_field, is_text};

/// It is an instance of Symbol.
#[tactic(auto, using(st_model::proofs::Runs::runs, crate::proofs::SymbolsAt::classes), unfolding(st_model::specs::Primitives::check_class))]
fn check_symbol_class<M: Memory>(m: &M, v: Oop) -> Result<(), Dead>
    ensures { let t = (M.view m.now).objects in
        Reads (check_class table (value v) SymbolClass) itself t result }
{
    if class_of(m, v)? == Oop(56) {
        Ok(())
    } else {
        Err(Dead::Kind)
    }
}

/// Whether it is a member of the symbol table, of this text.
#[tactic(auto, using(crate::proofs::SymbolsAt::symbols))]
fn is_symbol<M: Memory>(m: &M, v: Oop, text: &[u8]) -> bool
    ensures { Reads (is_symbol table (value v) text.now) itself (M.view m.now).objects (Ok result) }
{
    match check_symbol_class(m, v) {
        Ok(()) => is_text(m, v, text),
        Err(_) => false,
    }
}

/// The first Symbol of this text among the fields of the symbol table's value.
pub fn symbol_named<M: Memory>(m: &M, symbols: Oop, text: &[u8]) -> Result<Option<Oop>, Dead>
    ensures { Reads (symbol_named table (value symbols) text.now) found (M.view m.now).objects result }
{
    let count = count_fields(m, symbols)?;
    for i in 0..count {
        let member = fetch_field(m, symbols, i)?;
        if is_symbol(m, member, text) {
            return Ok(Some(member));
        }
    }
    Ok(None)
}
