ghost use Rattle.std.specs.Prelude.{◌≡◌, ◌<◌, ◌≤◌, ◌+◌, pos, ◌+ℤ◌, true, Ok};
ghost use Rattle.st_model.specs.{Values.{word, small_integer}, Steps.{set_registers, are_there}};
ghost use Rattle.st_model.specs.Contexts.{home_by, home_of, fetch_context_registers, scheduled_context, store_context_registers, switch};
ghost use Rattle.st_model.specs.inside.Calls.{Reads, itself};
ghost use Rattle.st_frames.specs.inside.Rows.{fetched_in, RowMoves, RowDoes, Takes};

use crate::fetched::Fetched;
use crate::fetching::page;
use crate::reading::read_registers;
use crate::registers::Registers;
use crate::words::{small, small_integer};
use st_memory::Objects;
use st_model::{Dead, PageObject, Word};

/// The home context of a context whose field 3 this is.
#[tactic(auto, using(st_model::proofs::Runs::runs, crate::proofs::Homes::homes))]
fn home_by<O: Objects>(m: &O, context: Word, method: Word) -> Result<Word, Dead>
    ensures { Reads (home_by O.names (word context) (word method)) word (O.table m.now) result }
{
    if method.is_small() {
        m.fetch_field(context, 5)
    } else {
        Ok(context)
    }
}

/// The home context of a context.
#[tactic(auto, using(st_model::proofs::Runs::runs), unfolding(st_model::specs::Contexts::home_of))]
pub fn home_of<O: Objects>(m: &O, context: Word) -> Result<Word, Dead>
    ensures { Reads (home_of O.names (word context)) word (O.table m.now) result }
{
    let method = m.fetch_field(context, 3)?;
    home_by(m, context, method)
}

/// Sets all registers, each of which is there.
#[inline(always)]
#[tactic(auto, using(crate::proofs::Homes::sets))]
fn set_registers<O: Objects>(_m: &O, r: &mut Registers, new: &Fetched)
    requires { are_there O.names (O.table _m.now) (fetched_in new.now) ≡ true }
    ensures does { RowMoves O.Objects.own (set_registers O.names (fetched_in new.now))
        itself _m.now r.old (Ok result) r.new }
{
    r.active = new.active;
    r.home = new.home;
    r.method = new.method;
    r.receiver = new.receiver;
    r.ip = new.ip;
    r.sp = new.sp;
}

/// Fetches the registers from a context, which becomes the active one.
#[inline(always)]
#[tactic(auto, using(crate::proofs::Doing::rows), unfolding(st_model::specs::Contexts::fetch_context_registers))]
pub fn fetch_context_registers<O: Objects>(
    m: &O,
    r: &mut Registers,
    context: Word,
) -> Result<(), Dead>
    ensures does { RowMoves O.Objects.own (fetch_context_registers O.names (word context))
        itself m.now r.old result r.new }
{
    let new = read_registers(m, context)?;
    set_registers(m, r, &new);
    Ok(())
}

/// The context of the scheduler's active process.
#[tactic(auto, using(st_model::proofs::Runs::runs), unfolding(st_model::specs::Contexts::scheduled_context))]
pub fn read_scheduled_context<O: Objects>(m: &O) -> Result<Word, Dead>
    ensures { Reads (scheduled_context O.names) word (O.table m.now) result }
{
    let association = page(m, PageObject::SchedulerAssociation);
    let scheduler = m.fetch_field(association, 1)?;
    let process = m.fetch_field(scheduler, 1)?;
    m.fetch_field(process, 1)
}

/// What is stored of the instruction pointer: it plus 1.
fn stored_instruction_pointer(r: &Registers) -> Word
    ensures { word result ≡ small_integer (r.now.ip +ℤ pos 1) }
{
    small_integer(r.ip + 1)
}

/// Stores the instruction pointer plus 1 and the stack pointer less 5 in the active context.
#[tactic(auto, using(crate::proofs::Doing::rows), unfolding(st_model::specs::Contexts::store_context_registers))]
pub fn store_context_registers<O: Objects>(m: &mut O, r: &Registers) -> Result<(), Dead>
    requires room { 2 ≤ O.room m.old }
    ensures does { RowDoes O.Objects.own (store_context_registers O.names)
        itself m.old r.now result m.new r.now }
    ensures takes { Takes O.Objects.own 2 m.old m.new }
{
    m.store_field(r.active, 1, stored_instruction_pointer(r))?;
    m.store_field(r.active, 2, small(r.sp - 5))
}

/// Goes from the active context to this one.
#[tactic(auto, using(crate::proofs::Doing::rows), unfolding(st_model::specs::Contexts::switch))]
pub fn switch<O: Objects>(m: &mut O, r: &mut Registers, context: Word) -> Result<(), Dead>
    requires room { 2 ≤ O.room m.old }
    ensures does { RowDoes O.Objects.own (switch O.names (word context))
        itself m.old r.old result m.new r.new }
    ensures takes { Takes O.Objects.own 2 m.old m.new }
{
    store_context_registers(m, r)?;
    fetch_context_registers(m, r, context)
}
