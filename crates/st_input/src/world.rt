ghost use Rattle.std.specs.Prelude.{◌≡◌, ◌&&◌, nat_le, if◌then◌else◌};
ghost use Rattle.st_model.specs.{Surroundings.{changed_world, MoveMouse}, Deeds.world_done};
ghost use Rattle.st_frames.specs.Naming.{IsNaming, naming};
ghost use Rattle.st_frames.specs.inside.Coming.{HoldsNamed};
ghost use Rattle.st_model.specs.declared.deed.Deed.TheVariants as deed;

use st_frames::{World, add_signal, hold_device};
use st_memory::{Memory, live_value};
use st_model::{Deed, Device, Oop, Word};

/// A device holds what a word names, where that is there.
fn hold_named<M: Memory>(m: &mut M, w: &mut World, device: Device, object: Word)
    requires named { IsNaming (M.view m.old).held w.old }
    ensures world { w.new ≡ world_done (deed.Hold device object) (M.view m.old).objects w.old }
    ensures memory { HoldsNamed (M.view m.old) (M.view m.new) w.new }
{
    if let Some(held) = live_value(m, object) {
        hold_device(m, w, device, held);
    }
}

/// A semaphore is held as timer, due at this millisecond, where it is there.
fn set_timer<M: Memory>(m: &mut M, w: &mut World, semaphore: Word, due: u32)
    requires named { IsNaming (M.view m.old).held w.old }
    ensures world { w.new ≡ world_done (deed.SetTimer semaphore due) (M.view m.old).objects w.old }
    ensures memory { HoldsNamed (M.view m.old) (M.view m.new) w.new }
{
    if let Some(timer) = live_value(m, semaphore) {
        hold_device(m, w, Device::Timer, timer);
        w.set_due(due);
    }
}

/// A semaphore's signal is pending and the timer is let go, where the semaphore is there and there is room for a signal.
#[tactic(auto, using(st_frames::proofs::HoldsNamed::known_nil))]
fn ring_timer<M: Memory>(m: &mut M, w: &mut World, semaphore: Word)
    requires named { IsNaming (M.view m.old).held w.old }
    ensures world { w.new ≡ world_done (deed.RingTimer semaphore) (M.view m.old).objects w.old }
    ensures memory { HoldsNamed (M.view m.old) (M.view m.new) w.new }
{
    if !w.has_signal_room() {
        return;
    }
    if let Some(rung) = live_value(m, semaphore) {
        add_signal(m, w, rung);
        hold_device(m, w, Device::Timer, Oop::NIL);
    }
}

/// A semaphore is held for when space is low, below so many free entries and words, where it is there.
fn set_low_space<M: Memory>(m: &mut M, w: &mut World, semaphore: Word, entries: u32, words: u32)
    requires named { IsNaming (M.view m.old).held w.old }
    ensures world { w.new
        ≡ world_done (deed.SetLowSpace semaphore entries words) (M.view m.old).objects w.old }
    ensures memory { HoldsNamed (M.view m.old) (M.view m.new) w.new }
{
    if let Some(warned) = live_value(m, semaphore) {
        hold_device(m, w, Device::LowSpace, warned);
        w.set_low(entries, words);
    }
}

/// The mouse is moved to this place, where its numbers are at most 16383.
fn move_mouse(w: &mut World, x: u16, y: u16)
    ensures world { let is_place = nat_le x 16383 && nat_le y 16383 in
        w.new ≡ (if is_place then changed_world (MoveMouse x y) w.old else w.old) }
    ensures devices { w.new.devices ≡ w.old.devices }
{
    if x > 16383 {
        return;
    }
    if y > 16383 {
        return;
    }
    w.move_mouse(x, y);
}

/// Does what a primitive left to be done on the world. The memory goes on holding what the world names.
pub fn change_world<M: Memory>(m: &mut M, w: &mut World, deed: Deed)
    requires named { IsNaming (M.view m.old).held w.old }
    ensures world { w.new ≡ world_done deed (M.view m.old).objects w.old }
    ensures held { (M.view m.new).held ≡ naming (M.view m.old).held w.new }
    ensures objects { (M.view m.new).objects ≡ (M.view m.old).objects }
    ensures head { (M.view m.new).head ≡ (M.view m.old).head }
{
    match deed {
        Deed::Hold { device, object } => hold_named(m, w, device, object),
        Deed::SetTimer { semaphore, due } => set_timer(m, w, semaphore, due),
        Deed::RingTimer { semaphore } => ring_timer(m, w, semaphore),
        Deed::SetLowSpace {
            semaphore,
            entries,
            words,
        } => set_low_space(m, w, semaphore, entries, words),
        Deed::MoveMouse { x, y } => move_mouse(w, x, y),
        Deed::TakeWord { .. } => w.take_word(),
        Deed::Nothing
        | Deed::StoreWord { .. }
        | Deed::StoreByte { .. }
        | Deed::StoreNumber { .. }
        | Deed::ReplaceBytes { .. }
        | Deed::StoreHeader { .. }
        | Deed::StoreLiteral { .. }
        | Deed::StoreTime { .. }
        | Deed::CopyBits { .. } => {}
    }
}
