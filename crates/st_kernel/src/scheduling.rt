// The first process and its context.
ghost use Rattle.std.specs.Prelude.{◌≡◌, ◌≢◌, ◌<◌, ◌≤◌, ◌+◌, IfOk};
ghost use Rattle.st_model.specs.{Values.{Ref, word}, Objects.place_of};
ghost use Rattle.st_model.specs.declared.page.PageObject.TheVariants.{MethodClass};
ghost use Rattle.st_model.specs.{Storage.check_not_method_class, inside.Calls.itself};
ghost use Rattle.st_frames.specs.inside.Rows.{RowReads, RowDoes, Takes};
ghost use Rattle.st_kernel.specs.Starting.{first_words, fill_first_context, schedule, schedule_method, in_new_context, in_new_process};

use st_frames::{Registers, page, small};
use st_memory::Objects;
use st_method::Header;
use st_model::{Dead, PageObject, Word};

/// What a process runs: a method, for a receiver.
#[derive(Clone, Copy)]
pub(crate) struct Run {
    pub(crate) method: Word,
    pub(crate) receiver: Word,
}

/// The first context of a process; and the method that it runs, with its header, and the receiver.
#[derive(Clone, Copy)]
struct FirstContext {
    context: Word,
    method: Word,
    header: Header,
    receiver: Word,
}

/// How many words are on the stack of a new context, which are the temporary variables.
fn first_words(header: Header) -> u32
    ensures words { result ≡ first_words (word header.0) }
    ensures small { result < 32 }
{
    if header.flag() == 6 {
        0
    } else {
        header.temporaries()
    }
}

/// Fills the first context of a method with this header.
#[tactic(auto, using(st_frames::proofs::Doing::rows), unfolding(crate::specs::Starting::fill_first_context))]
fn fill_first_context<O: Objects>(m: &mut O, r: &Registers, f: FirstContext) -> Result<(), Dead>
    requires room { 4 ≤ O.room m.old }
    ensures does { RowDoes O.Objects.own (fill_first_context O.names
        (word f.context) (word f.method) (word f.header.0) (word f.receiver))
        itself m.old r.now result m.new r.now }
    ensures takes { Takes O.Objects.own 4 m.old m.new }
{
    m.store_field(f.context, 1, small(2 * f.header.literals() + 3))?;
    m.store_field(f.context, 2, small(first_words(f.header)))?;
    m.store_field(f.context, 3, f.method)?;
    m.store_field(f.context, 5, f.receiver)
}

/// Makes a process with this context the scheduler's active one.
#[tactic(auto, using(st_frames::proofs::Doing::rows), unfolding(crate::specs::Starting::schedule))]
fn schedule<O: Objects>(m: &mut O, r: &Registers, process: Word, context: Word) -> Result<(), Dead>
    requires room { 3 ≤ O.room m.old }
    ensures does { RowDoes O.Objects.own (schedule O.names (word process) (word context))
        itself m.old r.now result m.new r.now }
    ensures takes { Takes O.Objects.own 3 m.old m.new }
{
    m.store_field(process, 1, context)?;
    m.store_field(process, 2, small(4))?;
    let association = page(m, PageObject::SchedulerAssociation);
    let scheduler = m.fetch_field(association, 1)?;
    m.store_field(scheduler, 1, process)
}

/// Fills the first context, and schedules it in this process.
#[tactic(auto, using(st_frames::proofs::Doing::rows), unfolding(crate::specs::Starting::schedule_method))]
fn schedule_method<O: Objects>(
    m: &mut O,
    r: &Registers,
    process: Word,
    f: FirstContext,
) -> Result<bool, Dead>
    requires room { 7 ≤ O.room m.old }
    ensures does { RowDoes O.Objects.own (schedule_method O.names (word process)
        (word f.context) (word f.method) (word f.header.0) (word f.receiver))
        itself m.old r.now result m.new r.now }
    ensures takes { Takes O.Objects.own 7 m.old m.new }
{
    fill_first_context(m, r, f)?;
    schedule(m, r, process, f.context)?;
    Ok(true)
}

/// A context of the method in this process, where there is room for it.
#[tactic(auto, using(st_frames::proofs::Doing::rows), unfolding(crate::specs::Starting::in_new_context))]
fn in_new_context<O: Objects>(
    m: &mut O,
    r: &Registers,
    process: Word,
    run: Run,
) -> Result<bool, Dead>
    requires room { 8 ≤ O.room m.old }
    ensures does { RowDoes O.Objects.own
        (in_new_context O.names (word process) (word run.method) (word run.receiver))
        itself m.old r.now result m.new r.now }
    ensures takes { Takes O.Objects.own 8 m.old m.new }
{
    let header = Header(m.method_header(run.method)?);
    let class = page(m, PageObject::MethodContextClass);
    let context = m.new_object(class, header.context_size())?;
    if context.same(page(m, PageObject::NilObject)) {
        return Ok(false);
    }
    let first = FirstContext {
        context,
        method: run.method,
        header,
        receiver: run.receiver,
    };
    schedule_method(m, r, process, first)
}

/// Any class but CompiledMethod.
#[tactic(auto, using(st_frames::proofs::Doing::rows, st_frames::proofs::Tries::tests, crate::proofs::Classes::classes), unfolding(st_model::specs::Storage::check_not_method_class))]
fn check_not_method_class<O: Objects>(m: &O, r: &Registers, class: Word) -> Result<(), Dead>
    ensures does { RowReads O.Objects.own (check_not_method_class O.names (word class))
        itself m.now r.now result }
    ensures other { IfOk result (λ u. word class ≢ Ref (place_of MethodClass)) }
{
    let methods = page(m, PageObject::MethodClass);
    if class.same(methods) {
        Err(Dead::Kind)
    } else {
        Ok(())
    }
}

/// A process of this class with its context, where there is room for both.
#[tactic(auto, using(st_frames::proofs::Doing::rows), unfolding(crate::specs::Starting::in_new_process))]
pub(crate) fn in_new_process<O: Objects>(
    m: &mut O,
    r: &Registers,
    class: Word,
    run: Run,
) -> Result<bool, Dead>
    requires room { 9 ≤ O.room m.old }
    ensures does { RowDoes O.Objects.own
        (in_new_process O.names (word class) (word run.method) (word run.receiver))
        itself m.old r.now result m.new r.now }
    ensures takes { Takes O.Objects.own 9 m.old m.new }
{
    check_not_method_class(m, r, class)?;
    let process = m.new_object(class, 4)?;
    if process.same(page(m, PageObject::NilObject)) {
        return Ok(false);
    }
    in_new_context(m, r, process, run)
}
