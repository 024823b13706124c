// The order of all things of a kernel text.
ghost use Rattle.std.specs.Prelude.{◌≡◌, ◌≤◌, length, IfOk, OnOk, Result};
ghost use Rattle.st_kernel_text.specs.inside.Views.{parts_of, account_of};
ghost use Rattle.st_emit.specs.Selectors.{sends_now};
ghost use Rattle.st_first_objects.specs.Orders.{want_all, page, numbered_from, selectors, selector_symbols, first_things, last_things, want_parts, order};
ghost use Rattle.st_first_objects.specs.{inside.Views.named_of, inside.Ordered.{Becomes, IsOrder}};

use crate::order::Order;
use crate::thing::{Thing, What};
use crate::unmade::Unmade;
use crate::wanted::want_part;
use st_emit::SPECIAL_SENDS;
use st_kernel_text::{Declarations, Kernel, Part};
use std::alloc::{AllocError, Global};

/// The root page, in the order of its pointers.
const PAGE: [(What, &[u8]); 20] = [
    (What::Nil, b""),
    (What::False, b""),
    (What::True, b""),
    (What::SchedulerAssociation, b""),
    (What::Class, b"SmallInteger"),
    (What::Class, b"String"),
    (What::Class, b"Array"),
    (What::Class, b"MethodContext"),
    (What::Class, b"BlockContext"),
    (What::Class, b"Point"),
    (What::Class, b"LargePositiveInteger"),
    (What::Class, b"Message"),
    (What::Class, b"CompiledMethod"),
    (What::Class, b"Character"),
    (What::Symbol, b"doesNotUnderstand:"),
    (What::Symbol, b"cannotReturn:"),
    (What::Selectors, b""),
    (What::Characters, b""),
    (What::Symbol, b"mustBeBoolean"),
    (What::Class, b"Symbol"),
];

/// The size of the first symbol table.
const FIRST_TABLE: usize = 16;

/// The most objects that a memory has.
pub(crate) const MOST_OBJECTS: usize = 32767;

/// These things of names are wanted.
fn want_named<'a>(order: &mut Order<'a>, named: &[(What, &'a [u8])]) -> Result<(), AllocError>
    ensures { OnOk result (order.new ≡ want_all order.old (named_of named.now)) }
{
    for (what, name) in named {
        order.want(Thing::named(*what, name))?;
    }
    Ok(())
}

/// So many things of this kind are wanted, numbered from 0.
fn want_numbered(order: &mut Order<'_>, what: What, count: usize) -> Result<(), AllocError>
    ensures { OnOk result (order.new ≡ want_all order.old (numbered_from what 0 count)) }
{
    for number in 0..count {
        order.want(Thing::numbered(what, number))?;
    }
    Ok(())
}

/// The Symbols of these selectors are wanted.
fn want_selectors<'a>(order: &mut Order<'a>, selectors: &[(&'a [u8], u8)]) -> Result<(), AllocError>
    ensures { OnOk result (order.new ≡ want_all order.old (selector_symbols (sends_now selectors.now))) }
{
    for (selector, _) in selectors {
        order.want(Thing::symbol(selector))?;
    }
    Ok(())
}

/// The things of the root page are wanted.
#[tactic(auto, unfolding(crate::specs::Orders::page))]
fn want_page(order: &mut Order<'_>) -> Result<(), AllocError>
    ensures { OnOk result (order.new ≡ want_all order.old page) }
{
    want_named(order, &PAGE)
}

/// The things before those of all parts are wanted.
#[tactic(auto, unfolding(crate::specs::Orders::characters))]
fn want_first(order: &mut Order<'_>) -> Result<(), AllocError>
    ensures { OnOk result (order.new ≡ first_things order.old) }
{
    want_page(order)?;
    want_numbered(order, What::Character, 256)?;
    order.want(Thing::only(What::Symbols))?;
    order.want(Thing::numbered(What::SymbolTable, FIRST_TABLE))?;
    order.want(Thing::only(What::Globals))
}

/// The Symbols of the special selectors are wanted.
#[tactic(auto, unfolding(crate::specs::Orders::selectors))]
fn want_special(order: &mut Order<'_>) -> Result<(), AllocError>
    ensures { OnOk result (order.new ≡ want_all order.old (selector_symbols selectors)) }
{
    want_selectors(order, &SPECIAL_SENDS)
}

/// The things behind those of all parts are wanted.
#[tactic(auto, unfolding(crate::specs::Orders::lists))]
fn want_last(order: &mut Order<'_>) -> Result<(), AllocError>
    ensures { OnOk result (order.new ≡ last_things order.old) }
{
    want_special(order)?;
    order.want(Thing::only(What::Scheduler))?;
    order.want(Thing::only(What::Lists))?;
    want_numbered(order, What::List, 8)
}

/// What the parts make is wanted.
fn want_parts<'a>(
    order: &mut Order<'a>,
    names: &Declarations,
    parts: &'a [Part],
) -> Result<(), Unmade>
    ensures { Becomes (want_parts names.now order.old 0 (parts_of parts.now)) order.new result }
{
    for (number, part) in parts.iter().enumerate() {
        if order.count() > MOST_OBJECTS {
            return Err(Unmade::NoRoom);
        }
        want_part(order, names, number, part)?;
    }
    Ok(())
}

/// The order of all things of a text.
pub(crate) fn order<'a>(alloc: Global, kernel: &'a Kernel) -> Result<Order<'a>, Unmade>
    ensures { IsOrder (order (account_of kernel.now)) result }
{
    let mut order = Order::new(alloc);
    want_first(&mut order)?;
    if let Err(unmade) = want_parts(&mut order, &kernel.names, &kernel.parts) {
        return Err(unmade);
    }
    want_last(&mut order)?;
    if order.count() > MOST_OBJECTS {
        return Err(Unmade::NoRoom);
    }
    Ok(order)
}
