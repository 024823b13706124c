//! A grown dictionary takes over what stood in the one before it (chapter 27).

ghost use Rattle.std.specs.Prelude.{◌≤◌, false, Some};
ghost use Rattle.st_model.specs.{Values.value, Table.table};
ghost use Rattle.st_install.specs.inside.Carried.{Goes, Becomes};
ghost use Rattle.st_install.specs.Dictionaries.{put_method, put_at, refill_unless, refill_from, refill};
ghost use Rattle.st_install.specs.inside.Endings.{ending_of, IsSmallPlace};

use crate::places::{DictionaryPlace, count_places, seek};
use crate::sure::{field, store_field};
use st_memory::Memory;
use st_model::Oop;

/// A selector goes to place k of a dictionary, and its method to the same place of the Array of methods.
pub fn put_method<M: Memory>(
    m: &mut M,
    dictionary: Oop,
    methods: Oop,
    k: u32,
    selector: Oop,
    method: Oop,
)
    requires goes { let d = value dictionary in
        Goes (put_method table d (value methods) k (value selector) (value method)) (M.view m.old) }
    requires small { k ≤ 262144 }
    ensures { let d = value dictionary in
        Becomes (put_method table d (value methods) k (value selector) (value method))
        (M.view m.old) tt (M.view m.new) }
{
    store_field(m, dictionary, 2 + k, selector);
    store_field(m, methods, k, method);
}

/// A selector and its method go to the place of nil at which the search ended.
fn put_at<M: Memory>(m: &mut M, dictionary: Oop, selector: Oop, method: Oop, place: DictionaryPlace)
    requires goes { let end = ending_of (Some place) in
        Goes (put_at table (value dictionary) (value selector) (value method) end) (M.view m.old) }
    requires small { IsSmallPlace (Some place) }
    ensures { let end = ending_of (Some place) in
        Becomes (put_at table (value dictionary) (value selector) (value method) end)
        (M.view m.old) tt (M.view m.new) }
{
    match place {
        DictionaryPlace::Holds(k) => {
            let methods = field(m, dictionary, 1);
            put_method(m, dictionary, methods, k, selector, method);
        }
        DictionaryPlace::Vacant(_) => unreachable!(),
    }
}

/// The selector that stands at place k of the old dictionary goes to the new one, with its method.
fn carry<M: Memory>(m: &mut M, old: Oop, new: Oop, k: u32, selector: Oop)
    requires { let s = value selector in
        Goes (refill_unless table (value old) (value new) k s false) (M.view m.old) }
    ensures { let s = value selector in
        Becomes (refill_unless table (value old) (value new) k s false)
        (M.view m.old) tt (M.view m.new) }
{
    let methods = field(m, old, 1);
    let method = field(m, methods, k);
    let place = seek(m, new, Oop::NIL, selector).unwrap().unwrap();
    put_at(m, new, selector, method, place);
}

/// What stands at place k of the old dictionary goes to the new one.
fn refill_from<M: Memory>(m: &mut M, old: Oop, new: Oop, k: u32)
    requires goes { Goes (refill_from table (value old) (value new) k) (M.view m.old) }
    requires small { k ≤ 262144 }
    ensures { Becomes (refill_from table (value old) (value new) k) (M.view m.old) tt (M.view m.new) }
{
    let selector = field(m, old, 2 + k);
    if selector.0 != Oop::NIL.0 {
        carry(m, old, new, k, selector);
    }
}

/// All selectors of the old dictionary go to the new one with their methods, in the order of their places.
pub fn refill<M: Memory>(m: &mut M, old: Oop, new: Oop)
    requires { Goes (refill table (value old) (value new)) (M.view m.old) }
    ensures { Becomes (refill table (value old) (value new)) (M.view m.old) tt (M.view m.new) }
{
    let places = count_places(m, old).unwrap();
    for k in 0..places {
        refill_from(m, old, new, k);
    }
}
