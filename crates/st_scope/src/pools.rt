//! The tables that share variables.

ghost use Rattle.std.specs.Prelude.{◌≡◌};
ghost use Rattle.st_model.specs.{Values.value, Table.table};
ghost use Rattle.st_scope.specs.{Variables.{pool_or_none, own_pools, pools}, inside.Meanings.{values, values_of}};
ghost use Rattle.st_scope.specs.inside.Findings.{Finds};

use crate::arrays::fields_or_none;
use crate::reading::{count_fields, fetch_field};
use crate::unread::Unread;
use st_memory::Memory;
use st_model::Oop;
use std::alloc::Global;

/// A pool, or none where there is nil in its place.
fn pool_or_none<M: Memory>(alloc: Global, m: &M, pool: Oop) -> Result<Vec<Oop>, Unread>
    ensures { let t = (M.view m.now).objects in
        Finds (pool_or_none table (value pool)) values_of t result }
{
    let mut pools = Vec::new(alloc);
    if pool.0 == 2 {
        return Ok(pools);
    }
    count_fields(m, pool)?;
    pools.push(pool)?;
    Ok(pools)
}

/// The class pool, then the shared pools in order.
fn own_pools<M: Memory>(alloc: Global, m: &M, class: Oop) -> Result<Vec<Oop>, Unread>
    ensures { let t = (M.view m.now).objects in
        Finds (own_pools table (value class)) values_of t result }
{
    let pool = fetch_field(m, class, 7)?;
    let mut own = pool_or_none(alloc, m, pool)?;
    let array = fetch_field(m, class, 8)?;
    let mut shared = fields_or_none(alloc, m, array)?;
    own.append(&mut shared)?;
    Ok(own)
}

/// The pools of a chain, from the class upward, those of the class first.
pub fn pools<M: Memory>(alloc: Global, m: &M, classes: &[Oop]) -> Result<Vec<Oop>, Unread>
    ensures { let t = (M.view m.now).objects in
        Finds (pools table (values classes.now)) values_of t result }
{
    let mut tables = Vec::new(alloc);
    for class in classes {
        let mut own = own_pools(alloc, m, *class)?;
        tables.append(&mut own)?;
    }
    Ok(tables)
}
