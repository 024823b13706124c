//! The Symbols that a method needs, of which those that the symbol table lacks are made.

ghost use Rattle.std.specs.{Prelude.{◌≡◌, ◌<◌, ◌∷◌, None, length, OnOk}, List.position_or_len};
ghost use Rattle.st_model.specs.{Values.value, Table.table};
ghost use Rattle.st_emit.specs.inside.Views.{literal_view, literals_view};
ghost use Rattle.st_install.specs.Symbols.{is_vacant, symbol_part, symbols_of, symbols_in, with_symbol, symbols_for};
ghost use Rattle.st_install.specs.{inside.Readies.{part_of, parts_of}, inside.Told.named_of};
ghost use Rattle.st_install.specs.inside.Naming.{nil, Becomes, with_named, in_field, in_array, with_made, naming, TellsFields, TellsNaming, TellsNames};

use crate::literals::put_object;
use crate::plan::{NewObject, PlannedValue, SymbolStore};
use crate::single::{ARRAY_CLASS, NamedSymbols, bytes_object, named_symbol, pointers_object};
use crate::symbols::symbol_named;
use st_emit::Literal;
use st_memory::Memory;
use st_model::Oop;
use st_scope::{Unread, count_fields, fetch_field};
use std::alloc::{AllocError, Global};
use std::collections::BTreeMap;

const SYMBOL_CLASS: Oop = Oop(56);

/// The symbol table's value and its fields as they come to be, what is made and stored for that, and the Symbols by their texts.
#[derive(Drop)]
pub(crate) struct SymbolPlan {
    pub table: PlannedValue,
    pub fields: Vec<PlannedValue>,
    pub objects: Vec<NewObject>,
    pub stores: Vec<SymbolStore>,
    pub named: NamedSymbols,
}

/// Whether it is nil, and not an object that is made.
#[tactic(auto, using(crate::proofs::Vacancies::vacancies))]
fn is_vacant(part: PlannedValue) -> bool
    ensures { result ≡ is_vacant nil (part_of part) }
{
    match part {
        PlannedValue::There(o) => o.0 == 2,
        PlannedValue::Made(_) => false,
    }
}

/// The first field that is nil, or how many fields there are.
fn vacant_field(fields: &[PlannedValue]) -> usize
    ensures { result ≡ position_or_len (is_vacant nil) (parts_of fields.now) }
{
    for (i, part) in fields.iter().enumerate() {
        if is_vacant(*part) {
            return i;
        }
    }
    fields.len()
}

/// Notes the Symbol of a text of which none is noted.
fn note(
    alloc: Global,
    plan: &mut SymbolPlan,
    text: &[u8],
    symbol: PlannedValue,
) -> Result<(), AllocError>
    requires { symbol_part (named_of plan.old.named.entries) text.now ≡ None }
    ensures { OnOk result (Becomes (with_named text.now (part_of symbol)) plan.old plan.new) }
{
    plan.named.insert(text.to_vec(alloc)?, symbol)?;
    Ok(())
}

/// Puts a new Symbol into a field of the table.
fn put_in_field(
    plan: &mut SymbolPlan,
    symbol: PlannedValue,
    vacant: usize,
) -> Result<(), AllocError>
    requires { vacant < length plan.old.fields.items }
    ensures { OnOk result (Becomes (in_field vacant (part_of symbol)) plan.old plan.new) }
{
    let Ok(field) = u32::try_from(vacant) else {
        return Err(AllocError);
    };
    plan.stores.push(SymbolStore {
        object: plan.table,
        field,
        value: symbol,
    })?;
    plan.fields[vacant] = symbol;
    Ok(())
}

/// Puts a new Symbol into an Array that becomes the table's value.
fn put_in_array(
    alloc: Global,
    plan: &mut SymbolPlan,
    symbol: PlannedValue,
    association: Oop,
) -> Result<(), AllocError>
    ensures { OnOk result (Becomes (in_array association (part_of symbol)) plan.old plan.new) }
{
    let size = (2 * plan.fields.len()).max(16);
    plan.fields.push(symbol)?;
    plan.fields.resize(size, PlannedValue::There(Oop::NIL))?;
    let fields = plan.fields.to_vec(alloc)?;
    let array = put_object(
        &mut plan.objects,
        pointers_object(alloc, ARRAY_CLASS, fields),
    )?;
    plan.stores.push(SymbolStore {
        object: PlannedValue::There(association),
        field: 1,
        value: array,
    })?;
    plan.table = array;
    Ok(())
}

/// Makes the Symbol of a text of which none is noted.
fn make_symbol(
    alloc: Global,
    plan: &mut SymbolPlan,
    association: Oop,
    text: &[u8],
) -> Result<(), AllocError>
    requires { symbol_part (named_of plan.old.named.entries) text.now ≡ None }
    ensures { OnOk result (Becomes (with_made association text.now) plan.old plan.new) }
{
    let vacant = vacant_field(&plan.fields);
    let bytes = text.to_vec(alloc)?;
    let symbol = put_object(&mut plan.objects, bytes_object(alloc, SYMBOL_CLASS, bytes))?;
    note(alloc, plan, text, symbol)?;
    if vacant < plan.fields.len() {
        put_in_field(plan, symbol, vacant)
    } else {
        put_in_array(alloc, plan, symbol, association)
    }
}

/// Finds the Symbol of a text that isn't known in the table, an Array, or makes it.
fn seek_symbol<M: Memory>(
    alloc: Global,
    m: &M,
    association: Oop,
    array: Oop,
    text: &[u8],
    plan: &mut SymbolPlan,
) -> Result<(), Unread>
    requires { symbol_part (named_of plan.old.named.entries) text.now ≡ None }
    ensures { let step = with_symbol table (value association) (value array) text.now in
        TellsNaming step (M.view m.now).objects plan.old plan.new result }
{
    match symbol_named(m, array, text)? {
        Some(symbol) => Ok(note(alloc, plan, text, PlannedValue::There(symbol))?),
        None => Ok(make_symbol(alloc, plan, association, text)?),
    }
}

/// The Symbol of a text, which is sought in the table only where it isn't known. Those that are known are sought in a map.
fn with_symbol<M: Memory>(
    alloc: Global,
    m: &M,
    association: Oop,
    array: Oop,
    text: &[u8],
    plan: &mut SymbolPlan,
) -> Result<(), Unread>
    ensures { let step = with_symbol table (value association) (value array) text.now in
        TellsNaming step (M.view m.now).objects plan.old plan.new result }
{
    match named_symbol(&plan.named, text) {
        Some(_) => Ok(()),
        None => seek_symbol(alloc, m, association, array, text, plan),
    }
}

/// The Symbols of a literal: of an array those of its elements.
#[cycle(symbols)]
fn name_literal<M: Memory>(
    alloc: Global,
    m: &M,
    association: Oop,
    array: Oop,
    literal: &Literal,
    plan: &mut SymbolPlan,
) -> Result<(), Unread>
    ensures { let step = naming association array (symbols_of (literal_view literal.now)) in
        TellsNaming step (M.view m.now).objects plan.old plan.new result }
{
    match literal {
        Literal::Symbol(text) => with_symbol(alloc, m, association, array, text, plan),
        Literal::Array(members) => name_literals(alloc, m, association, array, members, plan),
        Literal::Number { minus: _, size: _ } => Ok(()),
        Literal::Character(_) => Ok(()),
        Literal::Bytes(_) => Ok(()),
        Literal::Named(_) => Ok(()),
        Literal::Owner => Ok(()),
    }
}

/// The Symbols of literals, one after the other.
#[cycle(symbols)]
fn name_literals<M: Memory>(
    alloc: Global,
    m: &M,
    association: Oop,
    array: Oop,
    literals: &[Literal],
    plan: &mut SymbolPlan,
) -> Result<(), Unread>
    ensures { let step = naming association array (symbols_in (literals_view literals.now)) in
        TellsNaming step (M.view m.now).objects plan.old plan.new result }
{
    for literal in literals {
        name_literal(alloc, m, association, array, literal, plan)?;
    }
    Ok(())
}

/// The fields of an object of kind Pointers.
fn fields_of<M: Memory>(alloc: Global, m: &M, o: Oop) -> Result<Vec<PlannedValue>, Unread>
    ensures { TellsFields (value o) (M.view m.now).objects result }
{
    let count = count_fields(m, o)?;
    let mut fields = Vec::new(alloc);
    for i in 0..count {
        fields.push(PlannedValue::There(fetch_field(m, o, i)?))?;
    }
    Ok(fields)
}

/// The Symbols of a selector and of literals, of which those that the symbol table lacks are made. For each text that isn't known
/// yet the table is gone through once.
pub(crate) fn symbols_for<M: Memory>(
    alloc: Global,
    m: &M,
    association: Oop,
    selector: &[u8],
    literals: &[Literal],
) -> Result<SymbolPlan, Unread>
    ensures { let texts = selector.now ∷ symbols_in (literals_view literals.now) in
        TellsNames (symbols_for table (value association) texts) (M.view m.now).objects result }
{
    let array = fetch_field(m, association, 1)?;
    let mut plan = SymbolPlan {
        table: PlannedValue::There(array),
        fields: fields_of(alloc, m, array)?,
        objects: Vec::new(alloc),
        stores: Vec::new(alloc),
        named: BTreeMap::new(alloc),
    };
    with_symbol(alloc, m, association, array, selector, &mut plan)?;
    name_literals(alloc, m, association, array, literals, &mut plan)?;
    Ok(plan)
}
