//! The stores of an installation: the symbol table, the class's dictionary, selector, method and tally.

ghost use Rattle.std.specs.Prelude.{◌≡◌, Ok, Some};
ghost use Rattle.st_model.specs.{Values.value, Objects.nil, Table.table, inside.Calls.Reads};
ghost use Rattle.st_install.specs.{inside.Carried.{Goes, Becomes}, Dictionaries.raised_tally};
ghost use Rattle.st_install.specs.inside.Endings.{ending_of, IsSmallPlace};
ghost use Rattle.st_install.specs.Installing.{store_all, target, find_place, adopt, add_at, store_planned};
ghost use Rattle.st_install.specs.{inside.Placings.placing_of, inside.Readies.{stores_of, plan_of}};
ghost use Rattle.st_scope.specs.inside.Meanings.{values};

use crate::filling::part_value;
use crate::places::{DictionaryPlace, seek};
use crate::plan::{PlannedValue, Ready, SymbolStore};
use crate::refilling::{put_method, refill};
use crate::sure::{field, store_field};
use st_memory::Memory;
use st_model::Oop;

/// Where a method goes: the dictionary, its Array of methods, its tally, and where the search for the selector ends.
#[derive(Clone, Copy)]
pub struct Placing {
    pub dictionary: Oop,
    pub methods: Oop,
    pub tally: Oop,
    pub place: Option<DictionaryPlace>,
}

/// The stores into the symbol table, in their order.
fn store_all<M: Memory>(m: &mut M, made: &[Oop], stores: &[SymbolStore])
    requires { let vs = values made.now in
        Goes (store_all table nil vs (stores_of stores.now)) (M.view m.old) }
    ensures { let vs = values made.now in
        Becomes (store_all table nil vs (stores_of stores.now)) (M.view m.old) tt (M.view m.new) }
{
    for i in 0..stores.len() {
        let store = &stores[i];
        let object = part_value(made, store.object);
        let x = part_value(made, store.value);
        store_field(m, object, store.field, x);
    }
}

/// The dictionary that the method goes into: the class's, or the one that takes its place, refilled.
pub fn target<M: Memory>(m: &mut M, made: &[Oop], old: Oop, grown: Option<u32>) -> Oop
    requires { Goes (target table nil (values made.now) (value old) grown) (M.view m.old) }
    ensures { let vs = values made.now in
        Becomes (target table nil vs (value old) grown) (M.view m.old) (value result) (M.view m.new) }
{
    match grown {
        Some(k) => {
            let new = part_value(made, PlannedValue::Made(k));
            refill(m, old, new);
            new
        }
        None => old,
    }
}

/// Where a selector and its method go in a dictionary.
pub fn find_place<M: Memory>(m: &M, dictionary: Oop, selector: Oop) -> Placing
    requires { Goes (find_place table (value dictionary) (value selector)) (M.view m.now) }
    ensures finds { let t = (M.view m.now).objects in
        Reads (find_place table (value dictionary) (value selector)) placing_of t (Ok result) }
    ensures small { IsSmallPlace result.place }
{
    let methods = field(m, dictionary, 1);
    let tally = field(m, dictionary, 0);
    let place = seek(m, dictionary, selector, selector).unwrap();
    Placing {
        dictionary,
        methods,
        tally,
        place,
    }
}

/// One more than a tally, but 16383 stays.
fn raised_tally(tally: Oop) -> Oop
    ensures { value result ≡ raised_tally (value tally) }
{
    if !tally.is_small() {
        return tally;
    }
    if tally.0 == 32767 {
        return tally;
    }
    Oop(tally.0.wrapping_add(2))
}

/// A method is replaced, or added with its selector; only then the tally rises.
fn add_at<M: Memory>(m: &mut M, placing: Placing, selector: Oop, method: Oop)
    requires goes { let end = ending_of placing.place in
        Goes (add_at table (placing_of placing) (value selector) (value method) end) (M.view m.old) }
    requires small { IsSmallPlace placing.place }
    ensures { let end = ending_of placing.place in
        Becomes (add_at table (placing_of placing) (value selector) (value method) end)
        (M.view m.old) tt (M.view m.new) }
{
    let place = placing.place.unwrap();
    match place {
        DictionaryPlace::Holds(k) => store_field(m, placing.methods, k, method),
        DictionaryPlace::Vacant(k) => {
            put_method(m, placing.dictionary, placing.methods, k, selector, method);
            store_field(m, placing.dictionary, 0, raised_tally(placing.tally));
        }
    }
}

/// A grown dictionary becomes that of the class.
fn adopt<M: Memory>(m: &mut M, class: Oop, dictionary: Oop, grown: Option<u32>)
    requires { Goes (adopt table (value class) (value dictionary) grown) (M.view m.old) }
    ensures { let d = value dictionary in
        Becomes (adopt table (value class) d grown) (M.view m.old) tt (M.view m.new) }
{
    match grown {
        Some(_) => store_field(m, class, 1, dictionary),
        None => {}
    }
}

/// All stores, in the order symbol table, the class's dictionary, selector, method, tally.
pub fn store_planned<M: Memory>(m: &mut M, made: &[Oop], ready: &Ready, placing: Placing)
    requires goes { let vs = values made.now in
        Goes (store_planned table nil vs (plan_of ready.now) (placing_of placing)) (M.view m.old) }
    requires small { IsSmallPlace placing.place }
    ensures { let vs = values made.now in
        Becomes (store_planned table nil vs (plan_of ready.now) (placing_of placing))
        (M.view m.old) tt (M.view m.new) }
{
    store_all(m, made, &ready.symbol_stores);
    adopt(m, ready.class, placing.dictionary, ready.grown);
    let selector = part_value(made, ready.selector);
    let method = part_value(made, ready.method);
    add_at(m, placing, selector, method);
}
