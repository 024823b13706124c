//! The names that a method sees.

ghost use Rattle.std.specs.Prelude.{◌≡◌, ◌++◌, is_some, OnOk};
ghost use Rattle.st_model.specs.{Values.value, Table.table};
ghost use Rattle.st_scan.specs.Views.{method_view};
ghost use Rattle.st_scope.specs.{Calls.{as_table, names_seen, names}, inside.Meanings.values_of};
ghost use Rattle.st_scope.specs.inside.Seen.{FindsNames, AnswersNames};

use crate::fault::InstallFault;
use crate::fields::field_names;
use crate::lineage::lineage;
use crate::mentions::mentioned;
use crate::pools::pools;
use crate::shapes::{check_dictionary, check_symbols};
use crate::sought::shared_names;
use crate::unread::Unread;
use st_emit::Names;
use st_memory::Memory;
use st_model::Oop;
use st_scan::MethodTree;
use std::alloc::{AllocError, Global};

/// Puts the table of globals behind other tables, where there is one.
fn push_globals<M: Memory>(m: &M, tables: &mut Vec<Oop>) -> Result<(), AllocError>
    ensures { let globals = as_table (M.view m.now).head.globals in
        OnOk result (values_of tables.new ≡ values_of tables.old ++ globals) }
{
    let globals = m.globals();
    if globals.0 != 0 {
        tables.push(globals)?;
    }
    Ok(())
}

/// Whether the memory names a symbol table.
fn has_symbols<M: Memory>(m: &M) -> bool
    ensures { result ≡ is_some (M.view m.now).head.symbols }
{
    m.symbols().0 != 0
}

/// The names that a method's statements see.
fn names_seen<M: Memory>(
    alloc: Global,
    m: &M,
    class: Oop,
    meta: bool,
    t: &MethodTree,
) -> Result<Names, Unread>
    ensures { let v = M.view m.now in let tree = method_view t.now in
        FindsNames (names_seen table v.head (value class) meta tree) v.objects result }
{
    let chains = lineage(alloc, m, class, meta)?;
    let fields = field_names(alloc, m, &chains.owners)?;
    let mut tables = pools(alloc, m, &chains.sharers)?;
    check_dictionary(m, class)?;
    check_symbols(m)?;
    push_globals(m, &mut tables)?;
    let mentions = mentioned(alloc, t)?;
    let shared = shared_names(alloc, m, &tables, &mentions)?;
    Ok(Names {
        fields,
        shared,
        symbols: has_symbols(m),
    })
}

/// The names that a method sees in a class, or, on the class side, in a metaclass: the instance variables of the class and
/// its superclasses, those of superclasses first; of the names in its statements those that are shared; and whether there is
/// a symbol table. A name is shared by the first table that has it: of each class upward its class pool and then its shared
/// pools in order, and at last the table of globals. On the class side the pools are those of the one instance's classes.
///
/// `Shape` comes where a class, an Array of names or pools, a name, the dictionary or the symbol table is not of the form
/// that an installation asks. Besides it only `OutOfMemory` comes.
pub fn names<M: Memory>(
    alloc: Global,
    m: &M,
    class: Oop,
    meta: bool,
    t: &MethodTree,
) -> Result<Names, InstallFault>
    ensures { let v = M.view m.now in let tree = method_view t.now in
        AnswersNames (names table v.head (value class) meta tree) v.objects result }
{
    match names_seen(alloc, m, class, meta, t) {
        Ok(names) => Ok(names),
        Err(Unread::Dies(_)) => Err(InstallFault::Shape),
        Err(Unread::OutOfMemory) => Err(InstallFault::OutOfMemory),
    }
}
