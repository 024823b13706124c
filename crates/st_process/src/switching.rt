ghost use Rattle.st_model.specs.Deeds.{copies_pixels};
ghost use Rattle.std.specs.Prelude.{◌≡◌, ◌≤◌, ◌+◌, false, IfOk};
ghost use Rattle.st_model.specs.Values.{word};
ghost use Rattle.st_model.specs.Processes.{leave_process, enter_process};
ghost use Rattle.st_model.specs.inside.Calls.{itself};
ghost use Rattle.st_frames.specs.inside.Answering.{no_word};
ghost use Rattle.st_frames.specs.inside.Rows.{RowDoes, RowLeaves, Takes};

use crate::holding::hold;
use crate::scheduler::{scheduled_process, scheduler};
use st_frames::{Registers, page, switch};
use st_memory::Objects;
use st_model::{Dead, Deed, Device, PageObject, Word};

/// The first half of a switch to a process: the active context is kept in the process that the scheduler names, and this one
/// takes its place. That none waits any more is left to be done.
#[tactic(auto, using(st_frames::proofs::Doing::rows, st_frames::proofs::Doing::pages), unfolding(st_model::specs::Processes::leave_process, st_model::specs::Processes::let_wait))]
pub fn leave_process<O: Objects>(m: &mut O, r: &Registers, process: Word) -> Result<Deed, Dead>
    requires room { 2 ≤ O.room m.old }
    ensures does { RowLeaves O.Objects.own (leave_process O.names (word process))
        no_word itself m.old r.now result m.new r.now }
    ensures takes { Takes O.Objects.own 2 m.old m.new }
    ensures plain { IfOk result (λ d. copies_pixels d ≡ false) }
{
    let old = scheduled_process(m)?;
    m.store_field(old, 1, r.active)?;
    let scheduler = scheduler(m)?;
    m.store_field(scheduler, 1, process)?;
    hold(m, r, Device::NewProcess, page(m, PageObject::NilObject))
}

/// The second half: the context of the process becomes the active one.
#[tactic(auto, using(st_frames::proofs::Doing::rows), unfolding(st_model::specs::Processes::enter_process))]
pub fn enter_process<O: Objects>(m: &mut O, r: &mut Registers, process: Word) -> Result<(), Dead>
    requires room { 2 ≤ O.room m.old }
    ensures does { RowDoes O.Objects.own (enter_process O.names (word process))
        itself m.old r.old result m.new r.new }
    ensures takes { Takes O.Objects.own 2 m.old m.new }
{
    let context = m.fetch_field(process, 1)?;
    switch(m, r, context)
}
