//! An installation that is ready is carried out.

ghost use Rattle.std.specs.{Prelude.{◌≡◌, length}, List.AllByRecursion};
ghost use Rattle.st_model.specs.{Objects.nil, Table.{table, bounded_table}};
ghost use Rattle.st_install.specs.inside.Carried.{Goes, Becomes, Installs, IsPlannable, AreShaped, HasSmallBodies};
ghost use Rattle.st_install.specs.{inside.Goes.IsReadyFor, Installing.{fill_and_store, install}};
ghost use Rattle.st_install.specs.inside.Readies.{HasRoom, objects_of, plan_of};
ghost use Rattle.st_scope.specs.inside.Meanings.{values};

use crate::filling::{fill_all, part_value};
use crate::making::make_all;
use crate::plan::Ready;
use crate::storing::{find_place, store_planned, target};
use st_memory::Memory;
use st_model::Oop;

/// What was made is filled; then all places are found; then come the stores.
fn fill_and_store<M: Memory>(m: &mut M, made: &[Oop], ready: &Ready)
    requires goes { let vs = values made.now in
        Goes (fill_and_store table nil vs (plan_of ready.now)) (M.view m.old) }
    requires plannable { AllByRecursion IsPlannable (objects_of ready.now.objects.items) }
    requires shaped { let os = objects_of ready.now.objects.items in
        AreShaped (M.view m.old).objects (values made.now) os }
    requires each { length made.now ≡ length ready.now.objects.items }
    ensures { let vs = values made.now in
        Becomes (fill_and_store table nil vs (plan_of ready.now)) (M.view m.old) tt (M.view m.new) }
{
    fill_all(m, made, &ready.objects);
    let dictionary = target(m, made, ready.dictionary, ready.grown);
    let selector = part_value(made, ready.selector);
    let placing = find_place(m, dictionary, selector);
    store_planned(m, made, ready, placing);
}

/// Makes the objects of an installation, and then its stores, in the order symbol table, the class's dictionary, selector,
/// method, tally. Nothing is dropped yet.
fn make_and_store<M: Memory>(m: &mut M, ready: Ready)
    requires ready { IsReadyFor (M.view m.old) (plan_of ready) }
    requires bodies { HasSmallBodies (plan_of ready) }
    requires room { HasRoom ready }
    ensures { Becomes (install bounded_table (plan_of ready)) (M.view m.old) tt (M.view m.new) }
{
    let mut ready = ready;
    let mut made = ready.made;
    make_all(m, &mut made, &ready.objects);
    ready.made = made;
    fill_and_store(m, &ready.made, &ready);
}

/// Installs what is ready: its objects are made, and its stores done, in the order symbol table, the class's dictionary,
/// selector, method, tally; then what nothing supports is dropped. The memory is as it was when `ready` answered. It takes
/// no memory, and doesn't fail.
pub fn install<M: Memory>(m: &mut M, ready: Ready)
    requires ready { IsReadyFor (M.view m.old) (plan_of ready) }
    requires bodies { HasSmallBodies (plan_of ready) }
    requires room { HasRoom ready }
    ensures { Installs (plan_of ready) (M.view m.old) (M.view m.new) }
{
    make_and_store(m, ready);
    m.settle();
}
