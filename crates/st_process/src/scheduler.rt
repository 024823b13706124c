ghost use Rattle.std.specs.Prelude.{◌≡◌};
ghost use Rattle.st_model.specs.Values.{word};
ghost use Rattle.st_model.specs.Processes.{scheduler, scheduled_process, active_process, ready_lists};
ghost use Rattle.st_model.specs.inside.Calls.{Reads};
ghost use Rattle.st_frames.specs.inside.Rows.{RowReads};

use st_frames::{Registers, page};
use st_memory::Objects;
use st_model::{Dead, Device, PageObject, Word};

/// The scheduler.
#[tactic(auto, using(st_model::proofs::Runs::runs), unfolding(st_model::specs::Processes::scheduler))]
pub fn scheduler<O: Objects>(m: &O) -> Result<Word, Dead>
    ensures { Reads (scheduler O.names) word (O.table m.now) result }
{
    let association = page(m, PageObject::SchedulerAssociation);
    m.fetch_field(association, 1)
}

/// The process that the scheduler names as the active one.
#[tactic(auto, using(st_model::proofs::Runs::runs), unfolding(st_model::specs::Processes::scheduled_process))]
pub fn scheduled_process<O: Objects>(m: &O) -> Result<Word, Dead>
    ensures { Reads (scheduled_process O.names) word (O.table m.now) result }
{
    let scheduler = scheduler(m)?;
    m.fetch_field(scheduler, 1)
}

/// The lists of those that are ready, by priority.
#[tactic(auto, using(st_model::proofs::Runs::runs), unfolding(st_model::specs::Processes::ready_lists))]
pub fn ready_lists<O: Objects>(m: &O) -> Result<Word, Dead>
    ensures { Reads (ready_lists O.names) word (O.table m.now) result }
{
    let scheduler = scheduler(m)?;
    m.fetch_field(scheduler, 0)
}

/// The process that waits to be switched to, or else the one that the scheduler names.
#[tactic(auto, using(st_frames::proofs::Doing::rows, crate::proofs::Worlds::worlds), unfolding(st_model::specs::Processes::active_process, st_model::specs::Processes::active_or_new))]
pub fn active_process<O: Objects>(m: &O, r: &Registers) -> Result<Word, Dead>
    ensures { RowReads O.Objects.own (active_process O.names) word m.now r.now result }
{
    let waiting = Word::from(r.world.device(Device::NewProcess));
    if waiting.same(page(m, PageObject::NilObject)) {
        scheduled_process(m)
    } else {
        Ok(waiting)
    }
}
