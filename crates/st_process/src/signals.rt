ghost use Rattle.st_model.specs.Deeds.{copies_pixels};
ghost use Rattle.std.specs.Prelude.{◌≡◌, ◌≤◌, ◌+◌, ◌≤ℤ◌, pos, false, IfOk};
ghost use Rattle.st_model.specs.Values.{word};
ghost use Rattle.st_model.specs.Processes.{add_excess, signal, wait_in, take_excess};
ghost use Rattle.st_model.specs.inside.Calls.{itself};
ghost use Rattle.st_frames.specs.inside.Answering.{no_word};
ghost use Rattle.st_frames.specs.inside.Rows.{RowDoes, RowLeaves, Takes};

use crate::lists::{add_last, take_first};
use crate::ready::{resume, suspend};
use crate::scheduler::active_process;
use st_frames::{Registers, fetch_integer, page, small_integer};
use st_memory::Objects;
use st_model::{Dead, Deed, PageObject, Word};

/// A signal more of a semaphore is in excess, of which there are at most 16383.
#[tactic(auto, using(st_frames::proofs::Doing::rows, crate::proofs::Numbering::limits), unfolding(st_model::specs::Processes::add_excess))]
fn add_excess<O: Objects>(m: &mut O, r: &Registers, semaphore: Word) -> Result<(), Dead>
    requires room { 1 ≤ O.room m.old }
    ensures does { RowDoes O.Objects.own (add_excess O.names (word semaphore))
        itself m.old r.now result m.new r.now }
    ensures takes { Takes O.Objects.own 1 m.old m.new }
{
    let excess = fetch_integer(m, semaphore, 2)?;
    if 16383 < excess + 1 {
        return Err(Dead::Excess);
    }
    m.store_field(semaphore, 2, small_integer(excess + 1))
}

/// The first process that waits for a semaphore is resumed, or where none does, a signal more is in excess.
#[tactic(auto, using(st_frames::proofs::Doing::rows, st_frames::proofs::Doing::pages, crate::proofs::Numbering::chooses), unfolding(st_model::specs::Processes::signal, st_model::specs::Processes::wake_first))]
pub fn signal<O: Objects>(m: &mut O, r: &Registers, semaphore: Word) -> Result<Deed, Dead>
    requires room { 6 ≤ O.room m.old }
    ensures does { RowLeaves O.Objects.own (signal O.names (word semaphore))
        no_word itself m.old r.now result m.new r.now }
    ensures takes { Takes O.Objects.own 6 m.old m.new }
    ensures plain { IfOk result (λ d. copies_pixels d ≡ false) }
{
    let first = m.fetch_field(semaphore, 0)?;
    if first.same(page(m, PageObject::NilObject)) {
        add_excess(m, r, semaphore)?;
        Ok(Deed::Nothing)
    } else {
        let process = take_first(m, r, semaphore)?;
        resume(m, r, process)
    }
}

/// The active process waits for a semaphore, and another one goes on, which is left to be done.
#[tactic(auto, using(st_frames::proofs::Doing::rows), unfolding(st_model::specs::Processes::wait_in))]
fn wait_in<O: Objects>(m: &mut O, r: &Registers, semaphore: Word) -> Result<Deed, Dead>
    requires room { 6 ≤ O.room m.old }
    ensures does { RowLeaves O.Objects.own (wait_in O.names (word semaphore))
        no_word itself m.old r.now result m.new r.now }
    ensures takes { Takes O.Objects.own 6 m.old m.new }
    ensures plain { IfOk result (λ d. copies_pixels d ≡ false) }
{
    let process = active_process(m, r)?;
    add_last(m, r, process, semaphore)?;
    suspend(m, r)
}

/// A signal in excess is taken, or where there is none, the active process waits.
#[tactic(auto, using(st_frames::proofs::Doing::rows, st_frames::proofs::Leaves::left, crate::proofs::Numbering::takes))]
pub fn take_excess<O: Objects>(
    m: &mut O,
    r: &Registers,
    semaphore: Word,
    excess: i32,
) -> Result<Deed, Dead>
    requires high { excess ≤ℤ pos 16383 }
    requires room { 6 ≤ O.room m.old }
    ensures does { RowLeaves O.Objects.own (take_excess O.names (word semaphore) excess)
        no_word itself m.old r.now result m.new r.now }
    ensures takes { Takes O.Objects.own 6 m.old m.new }
    ensures plain { IfOk result (λ d. copies_pixels d ≡ false) }
{
    if 0 < excess {
        m.store_field(semaphore, 2, small_integer(excess - 1))?;
        Ok(Deed::Nothing)
    } else {
        wait_in(m, r, semaphore)
    }
}
