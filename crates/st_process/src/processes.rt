ghost use Rattle.std.specs.Prelude.{◌≡◌, ◌≤◌, ◌+◌, ◌≤ℤ◌, pos, negsuc, true, false, IfOk};
ghost use Rattle.st_model.specs.Values.{word};
ghost use Rattle.st_model.specs.Processes.{check_fields, signal_and_answer, primitive_signal, excess_of, wait_and_answer, primitive_wait, resume_and_answer, primitive_resume, check_active, suspend_and_answer, primitive_suspend};
ghost use Rattle.st_model.specs.inside.Calls.{itself};
ghost use Rattle.st_frames.specs.inside.Answering.{succeed_by};
ghost use Rattle.st_frames.specs.inside.Rows.{RowReads, RowTries, Takes, tried_changes, process_changes, is_done};

use crate::ready::{resume, suspend};
use crate::scheduler::active_process;
use crate::signals::{signal, take_excess};
use st_frames::{Answer, Registers, Tried, fetch_integer, page, succeed_leaving, top};
use st_memory::Objects;
use st_model::{Dead, PageObject, Word};

/// An object of kind Pointers with n fields or more.
#[tactic(auto, using(st_frames::proofs::Doing::checks), unfolding(st_model::specs::Processes::check_fields))]
pub fn check_fields<O: Objects>(m: &O, r: &Registers, v: Word, n: u32) -> Result<(), Dead>
    ensures does { RowReads O.Objects.own (check_fields O.names (word v) n) itself m.now r.now result }
{
    let count = m.count_fields(v)?;
    if count < n {
        return Err(Dead::Field);
    }
    Ok(())
}

/// Signals a semaphore and answers it.
#[tactic(auto, using(st_frames::proofs::Doing::rows), unfolding(st_frames::specs::inside::Answering::succeed_by, st_model::specs::Processes::signal_and_answer))]
fn answer_signal<O: Objects>(m: &mut O, r: &mut Registers, semaphore: Word) -> Result<Tried, Dead>
    requires room { 7 ≤ O.room m.old }
    ensures does { RowTries O.Objects.own
        (succeed_by O.names 0 (signal_and_answer O.names (word semaphore))) m.old r.old result m.new r.new }
    ensures done { IfOk result (λ t. is_done t ≡ true) }
    ensures takes { Takes O.Objects.own 7 m.old m.new }
{
    let deed = signal(m, r, semaphore)?;
    let word = semaphore;
    succeed_leaving(m, r, 0, Answer { word, deed })
}

/// Primitive 85: the receiver is signalled.
#[tactic(auto, using(st_frames::proofs::Tries::effects), unfolding(st_model::specs::Processes::primitive_signal))]
pub fn primitive_signal<O: Objects>(m: &mut O, r: &mut Registers) -> Result<Tried, Dead>
    requires room { process_changes ≤ O.room m.old }
    ensures does { RowTries O.Objects.own (primitive_signal O.names) m.old r.old result m.new r.new }
    ensures takes { Takes O.Objects.own (tried_changes process_changes result) m.old m.new }
    ensures still { IfOk result (λ t. is_done t ≡ false → m.new ≡ m.old) }
{
    let receiver = top(m, r)?;
    match check_fields(m, r, receiver, 3) {
        Ok(()) => answer_signal(m, r, receiver),
        Err(_) => Ok(Tried::Failed),
    }
}

/// How many signals of a semaphore are in excess.
#[tactic(auto, using(st_frames::proofs::Doing::rows), unfolding(st_model::specs::Processes::excess_of))]
fn excess_of<O: Objects>(m: &O, r: &Registers, semaphore: Word) -> Result<i32, Dead>
    ensures does { RowReads O.Objects.own (excess_of O.names (word semaphore)) itself m.now r.now result }
    ensures low { IfOk result (λ n. negsuc 16383 ≤ℤ n) }
    ensures high { IfOk result (λ n. n ≤ℤ pos 16383) }
{
    check_fields(m, r, semaphore, 3)?;
    fetch_integer(m, semaphore, 2)
}

/// Takes a signal in excess, or has the active process wait, and answers the semaphore.
#[tactic(auto, using(st_frames::proofs::Doing::rows, st_frames::proofs::Leaves::left), unfolding(st_frames::specs::inside::Answering::succeed_by, st_model::specs::Processes::wait_and_answer))]
fn answer_wait<O: Objects>(
    m: &mut O,
    r: &mut Registers,
    semaphore: Word,
    excess: i32,
) -> Result<Tried, Dead>
    requires high { excess ≤ℤ pos 16383 }
    requires room { 7 ≤ O.room m.old }
    ensures does { RowTries O.Objects.own
        (succeed_by O.names 0 (wait_and_answer O.names (word semaphore) excess))
        m.old r.old result m.new r.new }
    ensures done { IfOk result (λ t. is_done t ≡ true) }
    ensures takes { Takes O.Objects.own 7 m.old m.new }
{
    let deed = take_excess(m, r, semaphore, excess)?;
    let word = semaphore;
    succeed_leaving(m, r, 0, Answer { word, deed })
}

/// Primitive 86: the active process waits for a signal of the receiver.
#[tactic(auto, using(st_frames::proofs::Tries::effects), unfolding(st_model::specs::Processes::primitive_wait))]
pub fn primitive_wait<O: Objects>(m: &mut O, r: &mut Registers) -> Result<Tried, Dead>
    requires room { process_changes ≤ O.room m.old }
    ensures does { RowTries O.Objects.own (primitive_wait O.names) m.old r.old result m.new r.new }
    ensures takes { Takes O.Objects.own (tried_changes process_changes result) m.old m.new }
    ensures still { IfOk result (λ t. is_done t ≡ false → m.new ≡ m.old) }
{
    let receiver = top(m, r)?;
    match excess_of(m, r, receiver) {
        Ok(excess) => answer_wait(m, r, receiver, excess),
        Err(_) => Ok(Tried::Failed),
    }
}

/// Resumes a process and answers it.
#[tactic(auto, using(st_frames::proofs::Doing::rows), unfolding(st_frames::specs::inside::Answering::succeed_by, st_model::specs::Processes::resume_and_answer))]
fn answer_resume<O: Objects>(m: &mut O, r: &mut Registers, process: Word) -> Result<Tried, Dead>
    requires room { 4 ≤ O.room m.old }
    ensures does { RowTries O.Objects.own
        (succeed_by O.names 0 (resume_and_answer O.names (word process))) m.old r.old result m.new r.new }
    ensures done { IfOk result (λ t. is_done t ≡ true) }
    ensures takes { Takes O.Objects.own 4 m.old m.new }
{
    let deed = resume(m, r, process)?;
    let word = process;
    succeed_leaving(m, r, 0, Answer { word, deed })
}

/// Primitive 87: the receiver is resumed.
#[tactic(auto, using(st_frames::proofs::Tries::effects), unfolding(st_model::specs::Processes::primitive_resume))]
pub fn primitive_resume<O: Objects>(m: &mut O, r: &mut Registers) -> Result<Tried, Dead>
    requires room { process_changes ≤ O.room m.old }
    ensures does { RowTries O.Objects.own (primitive_resume O.names) m.old r.old result m.new r.new }
    ensures takes { Takes O.Objects.own (tried_changes process_changes result) m.old m.new }
    ensures still { IfOk result (λ t. is_done t ≡ false → m.new ≡ m.old) }
{
    let receiver = top(m, r)?;
    match check_fields(m, r, receiver, 4) {
        Ok(()) => answer_resume(m, r, receiver),
        Err(_) => Ok(Tried::Failed),
    }
}

/// The active process.
#[tactic(auto, using(st_frames::proofs::Doing::rows, st_frames::proofs::Tries::tests), unfolding(st_model::specs::Processes::check_active))]
fn check_active<O: Objects>(m: &O, r: &Registers, v: Word) -> Result<(), Dead>
    ensures does { RowReads O.Objects.own (check_active O.names (word v)) itself m.now r.now result }
{
    let process = active_process(m, r)?;
    if v.same(process) {
        Ok(())
    } else {
        Err(Dead::Kind)
    }
}

/// Suspends the active process and answers nil.
#[tactic(auto, using(st_frames::proofs::Doing::rows, st_frames::proofs::Doing::pages), unfolding(st_frames::specs::inside::Answering::succeed_by, st_model::specs::Processes::suspend_and_answer))]
fn answer_suspend<O: Objects>(m: &mut O, r: &mut Registers) -> Result<Tried, Dead>
    requires room { 4 ≤ O.room m.old }
    ensures does { RowTries O.Objects.own (succeed_by O.names 0 (suspend_and_answer O.names))
        m.old r.old result m.new r.new }
    ensures done { IfOk result (λ t. is_done t ≡ true) }
    ensures takes { Takes O.Objects.own 4 m.old m.new }
{
    let deed = suspend(m, r)?;
    let word = page(m, PageObject::NilObject);
    succeed_leaving(m, r, 0, Answer { word, deed })
}

/// Primitive 88: the receiver, which is active, is suspended.
#[tactic(auto, using(st_frames::proofs::Tries::effects), unfolding(st_model::specs::Processes::primitive_suspend))]
pub fn primitive_suspend<O: Objects>(m: &mut O, r: &mut Registers) -> Result<Tried, Dead>
    requires room { process_changes ≤ O.room m.old }
    ensures does { RowTries O.Objects.own (primitive_suspend O.names) m.old r.old result m.new r.new }
    ensures takes { Takes O.Objects.own (tried_changes process_changes result) m.old m.new }
    ensures still { IfOk result (λ t. is_done t ≡ false → m.new ≡ m.old) }
{
    let receiver = top(m, r)?;
    match check_active(m, r, receiver) {
        Ok(()) => answer_suspend(m, r),
        Err(_) => Ok(Tried::Failed),
    }
}
