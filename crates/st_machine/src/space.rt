ghost use Rattle.std.specs.Prelude.{◌≡◌};
ghost use Rattle.st_model.specs.{Table.table, Machine.used, Objects.nil};
ghost use Rattle.st_model.specs.Cycles.{less, capacity_of, is_low, warned_if_low};
ghost use Rattle.st_frames.specs.Naming.{IsNaming, naming};
ghost use Rattle.st_machine.specs.inside.Cycling.{warns};

use st_frames::{World, signal_once};
use st_memory::Memory;
use st_model::{Demand, Device};

/// The entries and words that are free.
pub fn free_space<M: Memory>(m: &M) -> Demand
    ensures { result ≡ less (capacity_of (M.view m.now).head) (used table (M.view m.now).objects) }
{
    let capacity = m.capacity();
    let used = m.used();
    Demand {
        entries: capacity.entries - used.entries,
        words: capacity.words - used.words,
    }
}

/// Whether fewer entries or words are free than the low-space request asks for.
fn is_low(free: Demand, w: &World) -> bool
    ensures { result ≡ is_low free w.now }
{
    free.entries < w.low_entries() || free.words < w.low_words()
}

/// Whether it is to be told that space is low: it is, and there are a semaphore and room for its signal.
#[inline(always)]
pub fn needs_warning<M: Memory>(m: &M, w: &World) -> bool
    ensures { result
        ≡ warns (less (capacity_of (M.view m.now).head) (used table (M.view m.now).objects)) w.now }
{
    w.holds(Device::LowSpace) && is_low(free_space(m), w) && w.has_signal_room()
}

/// Where space is low, has the low-space semaphore's signal pending, and lets the semaphore go.
pub fn warn<M: Memory>(m: &mut M, w: &mut World)
    requires named { IsNaming (M.view m.old).held w.old }
    ensures world { let free = less (capacity_of (M.view m.old).head) (used table (M.view m.old).objects) in
        w.new ≡ warned_if_low nil free w.old }
    ensures held { (M.view m.new).held ≡ naming (M.view m.old).held w.new }
    ensures objects { (M.view m.new).objects ≡ (M.view m.old).objects }
    ensures head { (M.view m.new).head ≡ (M.view m.old).head }
{
    if needs_warning(m, w) {
        signal_once(m, w, Device::LowSpace);
    }
}
