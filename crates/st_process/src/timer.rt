ghost use Rattle.std.specs.Prelude.{◌≡◌, ◌<◌, ◌≤◌, ◌+◌, length, IfOk, false};
ghost use Rattle.st_model.specs.Values.{word};
ghost use Rattle.st_model.specs.Input.{can_be_signalled, ring_or_wait, timing, signal_once, set_timer, primitive_timer};
ghost use Rattle.st_model.specs.declared.device.Device.TheVariants.{Timer};
ghost use Rattle.st_model.specs.inside.Calls.{Reads, itself};
ghost use Rattle.st_model.specs.Deeds.{copies_pixels};
ghost use Rattle.st_process.specs.inside.Timing.{timing_in, timing_by, wait_for, HasRoom};
ghost use Rattle.st_frames.specs.inside.Answering.{no_word};
ghost use Rattle.st_frames.specs.inside.Rows.{RowReads, RowLeaves, RowTries, Takes};

use crate::clocks::check_four_bytes;
use crate::holding::hold;
use crate::shapes::{Alarm, Timing};
use st_frames::{Answer, Registers, Tried, number_read, page, succeed_leaving, top, under};
use st_memory::Objects;
use st_model::{Dead, Deed, Device, PageObject, Word};

/// Whether it is an object of kind Pointers with three fields or more, as a semaphore is.
#[tactic(auto, using(crate::proofs::Semaphores::semaphores))]
fn can_be_signalled<O: Objects>(m: &O, v: Word) -> Result<bool, Dead>
    ensures { Reads (can_be_signalled O.names (word v)) itself (O.table m.now) result }
{
    if v.is_small() {
        return Ok(false);
    }
    if !m.fetch_kind(v)?.is_pointers() {
        return Ok(false);
    }
    Ok(3 <= m.count_fields(v)?)
}

/// A semaphore's timer is due by now, or waits.
#[tactic(auto, using(st_frames::proofs::Doing::checks, crate::proofs::Worlds::worlds, crate::proofs::Semaphores::dues))]
fn ring_or_wait<O: Objects>(m: &O, r: &Registers, time: u32) -> Result<Timing, Dead>
    ensures does { RowReads O.Objects.own (ring_or_wait time) timing_in m.now r.now result }
    ensures room { IfOk result (HasRoom r.now.world.now) }
{
    if r.world.millisecond_clock() < time {
        return Ok(Timing::Waits(time));
    }
    if 4096 <= r.world.pending_count() {
        return Err(Dead::Excess);
    }
    Ok(Timing::Rings)
}

/// What is done to the timer, by the time that was read.
#[tactic(auto, using(st_frames::proofs::Doing::rows), unfolding(crate::specs::inside::Timing::timing_by))]
fn timing_by<O: Objects>(m: &O, r: &Registers, semaphore: Word, time: u32) -> Result<Timing, Dead>
    ensures does { RowReads O.Objects.own (timing_by O.names (word semaphore) time)
        timing_in m.now r.now result }
    ensures room { IfOk result (HasRoom r.now.world.now) }
{
    if can_be_signalled(m, semaphore)? {
        ring_or_wait(m, r, time)
    } else {
        Ok(Timing::LetsGo)
    }
}

/// What is done to the timer, by the time that the first four bytes of an object say.
#[tactic(auto, using(st_frames::proofs::Doing::rows, crate::proofs::Semaphores::timings))]
fn find_timing<O: Objects>(m: &O, r: &Registers, alarm: Alarm) -> Result<Timing, Dead>
    ensures does { RowReads O.Objects.own (timing O.names (word alarm.semaphore) (word alarm.bytes))
        timing_in m.now r.now result }
    ensures room { IfOk result (HasRoom r.now.world.now) }
{
    check_four_bytes(m, r, alarm.bytes)?;
    let time = number_read(m, r, alarm.bytes, 0, 4)?;
    timing_by(m, r, alarm.semaphore, time as u32)
}

/// The semaphore's signal is to be pending and the timer let go, which is left to be done. The semaphore must be there.
#[tactic(auto, using(crate::proofs::Timers::rings))]
fn ring<O: Objects>(m: &O, r: &Registers, semaphore: Word) -> Result<Deed, Dead>
    requires room { length r.now.world.now.devices.pending < 4096 }
    ensures does { RowLeaves O.Objects.own (signal_once O.names Timer (word semaphore))
        no_word itself m.now r.now result m.now r.now }
    ensures plain { IfOk result (λ d. copies_pixels d ≡ false) }
{
    if !m.is_there(semaphore) {
        return Err(Dead::Kind);
    }
    if !m.is_there(page(m, PageObject::NilObject)) {
        return Err(Dead::Kind);
    }
    Ok(Deed::RingTimer { semaphore })
}

/// The semaphore is to be held for the timer, due at this millisecond, which is left to be done. It must be there.
#[tactic(auto, using(crate::proofs::Timers::waits))]
fn wait<O: Objects>(m: &O, r: &Registers, semaphore: Word, due: u32) -> Result<Deed, Dead>
    ensures does { RowLeaves O.Objects.own (wait_for O.names (word semaphore) due)
        no_word itself m.now r.now result m.now r.now }
    ensures plain { IfOk result (λ d. copies_pixels d ≡ false) }
{
    if m.is_there(semaphore) {
        Ok(Deed::SetTimer { semaphore, due })
    } else {
        Err(Dead::Kind)
    }
}

/// What is left to be done to the timer. What it names must be there.
#[tactic(auto, using(st_frames::proofs::Doing::rows, st_frames::proofs::Doing::pages, crate::proofs::Timers::timers))]
fn set_timer<O: Objects>(
    m: &O,
    r: &Registers,
    semaphore: Word,
    timing: Timing,
) -> Result<Deed, Dead>
    requires room { HasRoom r.now.world.now timing }
    ensures does { RowLeaves O.Objects.own (set_timer O.names (word semaphore) (timing_in timing))
        no_word itself m.now r.now result m.now r.now }
    ensures plain { IfOk result (λ d. copies_pixels d ≡ false) }
{
    match timing {
        Timing::Rings => ring(m, r, semaphore),
        Timing::Waits(due) => wait(m, r, semaphore, due),
        Timing::LetsGo => hold(m, r, Device::Timer, page(m, PageObject::NilObject)),
    }
}

/// Primitive 100: the first argument is to be signalled once the millisecond clock is at least the second.
#[tactic(auto, using(st_frames::proofs::Tries::effects), unfolding(st_model::specs::Input::primitive_timer))]
pub fn primitive_timer<O: Objects>(m: &mut O, r: &mut Registers) -> Result<Tried, Dead>
    requires room { 1 ≤ O.room m.old }
    ensures does { RowTries O.Objects.own (primitive_timer O.names) m.old r.old result m.new r.new }
    ensures takes { Takes O.Objects.own 1 m.old m.new }
{
    let receiver = under(m, r, 2)?;
    let semaphore = under(m, r, 1)?;
    let bytes = top(m, r)?;
    match find_timing(m, r, Alarm { semaphore, bytes }) {
        Ok(timing) => {
            let deed = set_timer(m, r, semaphore, timing)?;
            let word = receiver;
            succeed_leaving(m, r, 2, Answer { word, deed })
        }
        Err(_) => Ok(Tried::Failed),
    }
}
