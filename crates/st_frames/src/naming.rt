ghost use Rattle.std.specs.{Prelude.{◌≡◌, ◌<◌, length, IfSome}, Option.option_map};
ghost use Rattle.st_model.specs.{Values.{Value, value}, Objects.nil};
ghost use Rattle.st_model.specs.Surroundings.{holding, newest_of, changed_world, Hold, AddSignal, TakeSignal};
ghost use Rattle.st_model.specs.{Events.signalled_once, View.{Held, IsKnown, IsPlace, with_held}};
ghost use Rattle.st_frames.specs.Naming.{IsNaming, naming};

use crate::world::World;
use st_memory::Memory;
use st_model::{Device, Oop, RootPlace};

/// The place at which a memory holds what a device holds.
fn place_of(device: Device) -> RootPlace
    ensures place { IsPlace result }
    ensures held { (h : Held) (x : Value)
        → with_held h result x ≡ record h { devices = holding h.devices device x } }
{
    match device {
        Device::NewProcess => RootPlace::NewProcess,
        Device::Display => RootPlace::Display,
        Device::Cursor => RootPlace::Cursor,
        Device::InputSemaphore => RootPlace::InputSemaphore,
        Device::Timer => RootPlace::Timer,
        Device::LowSpace => RootPlace::LowSpace,
    }
}

/// A device holds an object from now on, in the world and in the memory; nil lets go what it held.
pub fn hold_device<M: Memory>(m: &mut M, w: &mut World, device: Device, object: Oop)
    requires known { IsKnown (M.view m.old).objects (value object) }
    requires named { IsNaming (M.view m.old).held w.old }
    ensures world { w.new ≡ changed_world (Hold device (value object)) w.old }
    ensures held { (M.view m.new).held ≡ naming (M.view m.old).held w.new }
    ensures objects { (M.view m.new).objects ≡ (M.view m.old).objects }
    ensures head { (M.view m.new).head ≡ (M.view m.old).head }
{
    m.hold(place_of(device), object);
    w.hold(device, object);
}

/// A semaphore's signal is pending, behind all others, in the world and in the memory.
#[tactic(auto, using(crate::proofs::HoldsNamed::knowns, crate::proofs::HoldsNamed::signals))]
pub fn add_signal<M: Memory>(m: &mut M, w: &mut World, semaphore: Oop)
    requires known { IsKnown (M.view m.old).objects (value semaphore) }
    requires room { length w.old.devices.pending < 4096 }
    requires named { IsNaming (M.view m.old).held w.old }
    ensures world { w.new ≡ changed_world (AddSignal (value semaphore)) w.old }
    ensures held { (M.view m.new).held ≡ naming (M.view m.old).held w.new }
    ensures objects { (M.view m.new).objects ≡ (M.view m.old).objects }
    ensures head { (M.view m.new).head ≡ (M.view m.old).head }
{
    m.hold(RootPlace::Pending(w.pending_count() as u16), semaphore);
    w.add_signal(semaphore);
}

/// The newest pending signal is taken away, in the world and in the memory. Its semaphore, where one was pending, is the
/// answer.
#[tactic(auto, using(crate::proofs::HoldsNamed::knowns, crate::proofs::HoldsNamed::signals))]
pub fn take_newest_signal<M: Memory>(m: &mut M, w: &mut World) -> Option<Oop>
    requires named { IsNaming (M.view m.old).held w.old }
    ensures newest { option_map value result ≡ newest_of w.old.devices.pending }
    ensures known { IfSome result (λ o. IsKnown (M.view m.new).objects (value o)) }
    ensures world { w.new ≡ changed_world TakeSignal w.old }
    ensures held { (M.view m.new).held ≡ naming (M.view m.old).held w.new }
    ensures objects { (M.view m.new).objects ≡ (M.view m.old).objects }
    ensures head { (M.view m.new).head ≡ (M.view m.old).head }
{
    let newest = w.newest_signal()?;
    m.hold(RootPlace::Pending((w.pending_count() - 1) as u16), Oop::NIL);
    w.take_signal();
    Some(newest)
}

/// The signal of what a device holds is pending, and it is let go, in the world and in the memory.
#[tactic(auto, using(crate::proofs::HoldsNamed::knowns, crate::proofs::HoldsNamed::signals))]
pub fn signal_once<M: Memory>(m: &mut M, w: &mut World, device: Device)
    requires room { length w.old.devices.pending < 4096 }
    requires named { IsNaming (M.view m.old).held w.old }
    ensures world { w.new ≡ signalled_once nil device w.old }
    ensures held { (M.view m.new).held ≡ naming (M.view m.old).held w.new }
    ensures objects { (M.view m.new).objects ≡ (M.view m.old).objects }
    ensures head { (M.view m.new).head ≡ (M.view m.old).head }
{
    let semaphore = w.device(device);
    add_signal(m, w, semaphore);
    hold_device(m, w, device, Oop::NIL);
}
