//! What the installation of a method makes and stores, in order: Symbols, the other literals, the method, and a dictionary.

ghost use Rattle.std.specs.Prelude.{◌≡◌, ◌<◌, IfOk};
ghost use Rattle.st_model.specs.{Values.value, Table.table};
ghost use Rattle.st_code.specs.inside.MethodDrafts.{parts_view};
ghost use Rattle.st_install.specs.{inside.Readies.{part_of, object_of, plan_of, HasRoom}, inside.Carried.HasSmallBodies};
ghost use Rattle.st_install.specs.inside.PlanDrafts.{plan_from, plan_step, TellsGrowth, TellsPlan};
ghost use Rattle.st_scope.specs.inside.Findings.{Finds};

use crate::growing::grown_for;
use crate::literals::{place_literals, put_object};
use crate::plan::{NewObject, Owner, PlannedValue, Ready, SymbolStore};
use crate::single::named_symbol;
use crate::sizes::{check_size, method_object};
use crate::symbol_plan::symbols_for;
use st_code::MethodParts;
use st_memory::Memory;
use st_model::{Dead, Oop};
use st_scope::{Unread, fetch_field};
use std::alloc::{AllocError, Global};

/// A plan up to the method: the objects before it.
#[derive(Drop)]
pub(crate) struct PlanDraft {
    pub objects: Vec<NewObject>,
    pub stores: Vec<SymbolStore>,
    pub literals: Vec<PlannedValue>,
    pub selector: PlannedValue,
}

/// The dictionary of a class, and where it grows the number of the one that takes its place, with the objects of that.
#[derive(Drop)]
pub(crate) struct Growth {
    pub dictionary: Oop,
    pub number: Option<u32>,
    pub objects: Vec<NewObject>,
}

/// The dictionary of a class and how it grows for a selector, where its next object has a number.
fn growth_of<M: Memory>(
    alloc: Global,
    m: &M,
    class: Oop,
    selector: PlannedValue,
    next: u32,
) -> Result<Growth, Unread>
    requires { next < 4294967295 }
    ensures { TellsGrowth (value class) (part_of selector) next (M.view m.now).objects result }
{
    let dictionary = fetch_field(m, class, 1)?;
    let objects = grown_for(alloc, m, dictionary, selector, next)?;
    let number = (!objects.is_empty()).then_some(next);
    Ok(Growth {
        dictionary,
        number,
        objects,
    })
}

/// The plan that a draft, the method and its dictionary's growth give.
fn assembled(
    alloc: Global,
    class: Oop,
    draft: PlanDraft,
    method: NewObject,
    growth: Growth,
) -> Result<Ready, AllocError>
    ensures plan { IfOk result (λ r. plan_of r ≡ plan_from (value class) draft (object_of method) growth) }
    ensures room { IfOk result HasRoom }
{
    let mut objects = draft.objects;
    let number = put_object(&mut objects, method)?;
    let mut grown = growth.objects;
    objects.append(&mut grown)?;
    let made = vec![in alloc; Oop::NIL; objects.len()]?;
    Ok(Ready {
        objects,
        symbol_stores: draft.stores,
        selector: draft.selector,
        method: number,
        class,
        dictionary: growth.dictionary,
        grown: growth.number,
        made,
    })
}

/// The plan with the method behind what its literals need, and then with a dictionary where the old one is too full.
fn plan_objects<M: Memory>(
    alloc: Global,
    m: &M,
    class: Oop,
    draft: PlanDraft,
    method: NewObject,
) -> Result<Ready, Unread>
    ensures plan { TellsPlan (value class) draft (object_of method) (M.view m.now).objects result }
    ensures room { IfOk result HasRoom }
    ensures bodies { IfOk result (λ r. HasSmallBodies (plan_of r)) }
{
    let Ok(next) = u32::try_from(draft.objects.len() + 1) else {
        return Err(Unread::OutOfMemory);
    };
    if next == 4_294_967_295 {
        return Err(Unread::OutOfMemory);
    }
    let growth = growth_of(alloc, m, class, draft.selector, next)?;
    let ready = assembled(alloc, class, draft, method, growth)?;
    check_size(&ready.objects)?;
    Ok(ready)
}

/// The installation of a method into the class that was found by an association, or why there is none.
pub(crate) fn plan<M: Memory>(
    alloc: Global,
    m: &M,
    symbol_table: Oop,
    of: Owner,
    parts: MethodParts,
) -> Result<Ready, Unread>
    ensures plan { let step = plan_step (value symbol_table) of (parts_view parts) in
        Finds step plan_of (M.view m.now).objects result }
    ensures room { IfOk result HasRoom }
    ensures bodies { IfOk result (λ r. HasSmallBodies (plan_of r)) }
{
    let mut named = symbols_for(alloc, m, symbol_table, &parts.selector, &parts.literals)?;
    let literals = place_literals(
        alloc,
        m,
        &named.named,
        of,
        &parts.literals,
        &mut named.objects,
    )?;
    let Some(selector) = named_symbol(&named.named, &parts.selector) else {
        return Err(Unread::Dies(Dead::Field));
    };
    let method = method_object(alloc, parts.header, &literals, parts.bytes)?;
    let draft = PlanDraft {
        objects: named.objects,
        stores: named.stores,
        literals,
        selector,
    };
    plan_objects(alloc, m, of.class, draft, method)
}
