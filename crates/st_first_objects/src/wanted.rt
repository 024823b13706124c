// What each part makes.
ghost use Rattle.std.specs.Prelude.{◌≡◌, ◌++◌, ℕ, List, IfOk, OnOk, map};
ghost use Rattle.st_kernel_text.specs.{Parts.Part, inside.Lists.texts_of, inside.Views.{class_of, pool_of, part_of}};
ghost use Rattle.st_first_objects.specs.{declared.thing.What.TheVariants.Variable, Things.within};
ghost use Rattle.st_first_objects.specs.Classes.{has_pool};
ghost use Rattle.st_first_objects.specs.Orders.{want_all, class_things, names_things, shared_things, pool_things, wanted_by};
ghost use Rattle.st_first_objects.specs.inside.Views.{thing_of, things_of};

use crate::order::Order;
use crate::thing::{Thing, What};
use st_kernel_text::{Class, Declarations, Part, Pool, Text};
use std::alloc::AllocError;

/// A class, its metaclass, their dictionaries and its name are wanted.
fn want_class<'a>(order: &mut Order<'a>, name: &'a [u8]) -> Result<(), AllocError>
    ensures { OnOk result (order.new ≡ want_all order.old (class_things name.now)) }
{
    order.want_all(&[
        Thing::class(name),
        Thing::named(What::Metaclass, name),
        Thing::named(What::Dictionary, name),
        Thing::named(What::Methods, name),
        Thing::named(What::MetaDictionary, name),
        Thing::named(What::MetaMethods, name),
        Thing::symbol(name),
    ])
}

/// The Strings of these names are wanted.
fn want_variables<'a>(
    order: &mut Order<'a>,
    number: usize,
    names: &'a [Text],
) -> Result<(), AllocError>
    ensures { let strings = map (within Variable number) (texts_of names.now) in
        OnOk result (order.new ≡ want_all order.old strings) }
{
    for name in names {
        order.want(Thing::within(What::Variable, number, name))?;
    }
    Ok(())
}

/// The Array of the names of a class's variables is wanted, where it has some, and the names.
fn want_names<'a>(order: &mut Order<'a>, number: usize, class: &'a Class) -> Result<(), AllocError>
    ensures { OnOk result (order.new ≡ want_all order.old (names_things number (class_of class.now))) }
{
    let names = class.variables.as_slice();
    if names.is_empty() {
        return Ok(());
    }
    order.want(Thing::named(What::Names, &class.name))?;
    want_variables(order, number, names)
}

/// The Symbols and associations of class variables are wanted.
fn want_shared<'a>(
    order: &mut Order<'a>,
    number: usize,
    names: &'a [Text],
) -> Result<(), AllocError>
    ensures { OnOk result (order.new ≡ want_all order.old (shared_things number (texts_of names.now))) }
{
    for name in names {
        order.want(Thing::symbol(name))?;
        order.want(Thing::within(What::Shared, number, name))?;
    }
    Ok(())
}

/// Whether the class of this name has class variables.
fn has_pool(names: &Declarations, name: &[u8]) -> bool
    ensures { result ≡ has_pool names.now name.now }
{
    match names.layout(name) {
        Some(layout) => layout.shares,
        None => false,
    }
}

/// The Array of a class's class variables is wanted, where it has some.
fn want_pool<'a>(
    order: &mut Order<'a>,
    names: &Declarations,
    pool: &'a Pool,
) -> Result<(), AllocError>
    ensures { OnOk result (order.new ≡ want_all order.old (pool_things names.now (pool_of pool.now))) }
{
    if has_pool(names, &pool.class) {
        order.want(Thing::named(What::Pool, &pool.class))?;
    }
    Ok(())
}

/// What a part makes is wanted.
pub(crate) fn want_part<'a>(
    order: &mut Order<'a>,
    names: &Declarations,
    number: usize,
    part: &'a Part,
) -> Result<(), AllocError>
    ensures { OnOk result (order.new ≡ want_all order.old (wanted_by names.now number (part_of part.now))) }
{
    match part {
        Part::Class(class) => {
            want_class(order, &class.name)?;
            want_names(order, number, class)?;
            order.want(Thing::named(What::Global, &class.name))
        }
        Part::Pool(pool) => {
            want_pool(order, names, pool)?;
            want_shared(order, number, &pool.variables)
        }
        Part::Global(name) => {
            order.want(Thing::symbol(name))?;
            order.want(Thing::named(What::Global, name))
        }
        _ => Ok(()),
    }
}
