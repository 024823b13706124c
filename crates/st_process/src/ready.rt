ghost use Rattle.st_model.specs.Deeds.{copies_pixels};
ghost use Rattle.std.specs.Prelude.{◌≡◌, ◌≤◌, ◌+◌, ◌≤ℤ◌, pos, negsuc, false, IfOk};
ghost use Rattle.st_model.specs.Values.{word};
ghost use Rattle.st_model.specs.Machine.{State};
ghost use Rattle.st_model.specs.Table.{Table};
ghost use Rattle.st_model.specs.Processes.{list_number, sleep, resume, go_on_with, suspend};
ghost use Rattle.st_model.specs.inside.Calls.{Does, Reads, itself};
ghost use Rattle.st_process.specs.inside.Scheduling.{highest_list};
ghost use Rattle.st_frames.specs.inside.Answering.{no_word};
ghost use Rattle.st_frames.specs.inside.Rows.{RowDoes, RowLeaves, Takes};

use crate::holding::hold;
use crate::lists::{add_last, is_empty, take_first};
use crate::scheduler::{active_process, ready_lists};
use st_frames::{Registers, fetch_integer};
use st_memory::Objects;
use st_model::{Dead, Deed, Device, Word};

/// The number, from 0, of the list of a priority, which counts from 1.
#[tactic(auto, using(crate::proofs::Numbering::numbers))]
fn list_number(priority: i32) -> Result<u32, Dead>
    requires low { negsuc 16383 ≤ℤ priority }
    requires high { priority ≤ℤ pos 16383 }
    ensures { (s : State Table) → Does (list_number priority) itself s result s }
{
    if priority < 1 {
        Err(Dead::Field)
    } else {
        Ok((priority - 1) as u32)
    }
}

/// A process is ready, behind those of its priority.
#[tactic(auto, using(st_frames::proofs::Doing::rows), unfolding(st_model::specs::Processes::sleep))]
pub fn sleep<O: Objects>(m: &mut O, r: &Registers, process: Word) -> Result<(), Dead>
    requires room { 3 ≤ O.room m.old }
    ensures does { RowDoes O.Objects.own (sleep O.names (word process))
        itself m.old r.now result m.new r.now }
    ensures takes { Takes O.Objects.own 3 m.old m.new }
{
    let priority = fetch_integer(m, process, 2)?;
    let number = list_number(priority)?;
    let lists = ready_lists(m)?;
    let list = m.fetch_field(lists, number)?;
    add_last(m, r, process, list)
}

/// A process goes on in place of the active one where its priority is greater, which is left to be done, and else it is ready.
pub fn resume<O: Objects>(m: &mut O, r: &Registers, process: Word) -> Result<Deed, Dead>
    requires room { 3 ≤ O.room m.old }
    ensures does { RowLeaves O.Objects.own (resume O.names (word process))
        no_word itself m.old r.now result m.new r.now }
    ensures takes { Takes O.Objects.own 3 m.old m.new }
    ensures plain { IfOk result (λ d. copies_pixels d ≡ false) }
{
    let priority = fetch_integer(m, process, 2)?;
    let active = active_process(m, r)?;
    let other = fetch_integer(m, active, 2)?;
    if other < priority {
        sleep(m, r, active)?;
        hold(m, r, Device::NewProcess, process)
    } else {
        sleep(m, r, process)?;
        Ok(Deed::Nothing)
    }
}

/// The highest of n lists that has a process.
fn highest_list<O: Objects>(m: &O, lists: Word, n: u32) -> Result<Word, Dead>
    ensures { Reads (highest_list O.names (word lists) n) word (O.table m.now) result }
{
    let mut left = n;
    while 0 < left {
        let list = m.fetch_field(lists, left - 1)?;
        if !is_empty(m, list)? {
            return Ok(list);
        }
        left -= 1;
    }
    Err(Dead::Idle)
}

/// The first process of a list goes on, which is left to be done.
#[tactic(auto, using(st_frames::proofs::Doing::rows), unfolding(st_model::specs::Processes::go_on_with, st_model::specs::Processes::let_wait))]
fn go_on_with<O: Objects>(m: &mut O, r: &Registers, list: Word) -> Result<Deed, Dead>
    requires room { 3 ≤ O.room m.old }
    ensures does { RowLeaves O.Objects.own (go_on_with O.names (word list))
        no_word itself m.old r.now result m.new r.now }
    ensures takes { Takes O.Objects.own 3 m.old m.new }
    ensures plain { IfOk result (λ d. copies_pixels d ≡ false) }
{
    let process = take_first(m, r, list)?;
    hold(m, r, Device::NewProcess, process)
}

/// The first process of the highest priority that is ready goes on, which is left to be done.
#[tactic(auto, using(st_frames::proofs::Doing::rows, crate::proofs::Highest::suspends))]
pub fn suspend<O: Objects>(m: &mut O, r: &Registers) -> Result<Deed, Dead>
    requires room { 3 ≤ O.room m.old }
    ensures does { RowLeaves O.Objects.own (suspend O.names)
        no_word itself m.old r.now result m.new r.now }
    ensures takes { Takes O.Objects.own 3 m.old m.new }
    ensures plain { IfOk result (λ d. copies_pixels d ≡ false) }
{
    let lists = ready_lists(m)?;
    let n = m.count_fields(lists)?;
    let list = highest_list(m, lists, n)?;
    go_on_with(m, r, list)
}
