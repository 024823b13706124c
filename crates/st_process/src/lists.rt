ghost use Rattle.std.specs.Prelude.{◌≡◌, ◌≤◌, ◌+◌};
ghost use Rattle.st_model.specs.Values.{Ref, word};
ghost use Rattle.st_model.specs.Objects.{place_of};
ghost use Rattle.st_model.specs.declared.page.PageObject.TheVariants.{NilObject};
ghost use Rattle.st_model.specs.Steps.{same_value};
ghost use Rattle.st_model.specs.Processes.{link_first, add_last, unlink_first, take_first};
ghost use Rattle.st_model.specs.inside.Calls.{Reads, itself};
ghost use Rattle.st_process.specs.inside.Scheduling.{is_empty};
ghost use Rattle.st_frames.specs.inside.Rows.{RowDoes, Takes};

use crate::shapes::Listed;
use st_frames::{Registers, page};
use st_memory::Objects;
use st_model::{Dead, PageObject, Word};

/// Whether a list has no process.
#[tactic(auto, using(st_model::proofs::Runs::runs), unfolding(crate::specs::inside::Scheduling::is_empty))]
pub fn is_empty<O: Objects>(m: &O, list: Word) -> Result<bool, Dead>
    ensures { Reads (is_empty O.names (word list)) itself (O.table m.now) result }
{
    let first = m.fetch_field(list, 0)?;
    Ok(first.same(page(m, PageObject::NilObject)))
}

/// Links a process behind the last one of a list, or where its first one is nil, as the first.
#[tactic(auto, using(st_frames::proofs::Doing::rows, st_frames::proofs::Doing::pages), unfolding(st_model::specs::Processes::link_first))]
fn link_first<O: Objects>(m: &mut O, r: &Registers, p: Listed, first: Word) -> Result<(), Dead>
    requires room { 1 ≤ O.room m.old }
    ensures does { RowDoes O.Objects.own
        (link_first O.names (word p.process) (word p.list)
        (same_value (word first) (Ref (place_of NilObject)))) itself m.old r.now result m.new r.now }
    ensures takes { Takes O.Objects.own 1 m.old m.new }
{
    let Listed { process, list } = p;
    if first.same(page(m, PageObject::NilObject)) {
        m.store_field(list, 0, process)
    } else {
        let last = m.fetch_field(list, 1)?;
        m.store_field(last, 0, process)
    }
}

/// A process goes behind the last one of a list.
#[tactic(auto, using(st_frames::proofs::Doing::rows, st_frames::proofs::Doing::pages), unfolding(st_model::specs::Processes::add_last))]
pub fn add_last<O: Objects>(m: &mut O, r: &Registers, process: Word, list: Word) -> Result<(), Dead>
    requires room { 3 ≤ O.room m.old }
    ensures does { RowDoes O.Objects.own (add_last O.names (word process) (word list))
        itself m.old r.now result m.new r.now }
    ensures takes { Takes O.Objects.own 3 m.old m.new }
{
    let first = m.fetch_field(list, 0)?;
    link_first(m, r, Listed { process, list }, first)?;
    m.store_field(list, 1, process)?;
    m.store_field(process, 3, list)
}

/// The first process of a list, which has this last one, leaves it to the one behind it.
#[tactic(auto, using(st_frames::proofs::Doing::rows, st_frames::proofs::Doing::pages), unfolding(st_model::specs::Processes::unlink_first))]
fn unlink_first<O: Objects>(m: &mut O, r: &Registers, p: Listed, last: Word) -> Result<(), Dead>
    requires room { 2 ≤ O.room m.old }
    ensures does { RowDoes O.Objects.own
        (unlink_first O.names (word p.process) (word p.list) (Ref (place_of NilObject))
        (same_value (word last) (word p.process))) itself m.old r.now result m.new r.now }
    ensures takes { Takes O.Objects.own 2 m.old m.new }
{
    let Listed { process, list } = p;
    if last.same(process) {
        let nil = page(m, PageObject::NilObject);
        m.store_field(list, 0, nil)?;
        m.store_field(list, 1, nil)
    } else {
        let next = m.fetch_field(process, 0)?;
        m.store_field(list, 0, next)
    }
}

/// The first process of a list, which leaves it.
#[tactic(auto, using(st_frames::proofs::Doing::rows, st_frames::proofs::Doing::pages), unfolding(st_model::specs::Processes::take_first))]
pub fn take_first<O: Objects>(m: &mut O, r: &Registers, list: Word) -> Result<Word, Dead>
    requires room { 3 ≤ O.room m.old }
    ensures does { RowDoes O.Objects.own (take_first O.names (word list))
        word m.old r.now result m.new r.now }
    ensures takes { Takes O.Objects.own 3 m.old m.new }
{
    let process = m.fetch_field(list, 0)?;
    let last = m.fetch_field(list, 1)?;
    unlink_first(m, r, Listed { process, list }, last)?;
    m.store_field(process, 0, page(m, PageObject::NilObject))?;
    Ok(process)
}
