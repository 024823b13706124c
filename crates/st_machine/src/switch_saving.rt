ghost use Rattle.std.specs.Prelude.{◌≡◌, ◌≤◌, ◌+◌, OnOk};
ghost use Rattle.st_model.specs.{Table.bounded_table, Saving.{store_active, store_process}};
ghost use Rattle.st_model.specs.inside.Calls.{Does, itself};
ghost use Rattle.st_frames.specs.{inside.Shown.{IsReady, shown}, inside.Rows.{RowDoes, Takes}};

use crate::switching::switch_if_waiting;
use st_frames::{Frame, Registers, World, fetch_scheduled, load, store_context_registers};
use st_memory::{Memory, Objects};
use st_model::Dead;
use st_process::scheduled_process;

/// Stores the registers, and the active context with the scheduler's process.
#[tactic(auto, using(st_frames::proofs::Doing::rows), unfolding(st_model::specs::Saving::store_active))]
fn store_active_row<O: Objects>(m: &mut O, r: &Registers) -> Result<(), Dead>
    requires room { 3 ≤ O.room m.old }
    ensures does { RowDoes O.Objects.own (store_active O.names) itself m.old r.now result m.new r.now }
    ensures takes { Takes O.Objects.own 3 m.old m.new }
{
    store_context_registers(m, r)?;
    let process = scheduled_process(m)?;
    m.store_field(process, 1, r.active)
}

/// The same over a memory.
fn store_active<M: Memory>(m: &mut M, f: &Frame, w: &World) -> Result<(), Dead>
    requires ready { IsReady (M.view m.old) f.now w.now }
    ensures does { Does (store_active bounded_table) itself
        (shown (M.view m.old) f.now w.now) result (shown (M.view m.new) f.now w.now) }
    ensures ready { OnOk result (IsReady (M.view m.new) f.now w.now) }
{
    let r = load(m, f, w);
    store_active_row(m, &r)
}

/// Carries out a process switch that waits, stores the active context with its process, and fetches the registers again from
/// there. So an image of the memory can be begun with.
pub fn store_process<M: Memory>(m: &mut M, f: &mut Frame, w: &mut World) -> Result<(), Dead>
    requires ready { IsReady (M.view m.old) f.old w.old }
    ensures does { Does (store_process bounded_table) itself
        (shown (M.view m.old) f.old w.old) result (shown (M.view m.new) f.new w.new) }
    ensures ready { OnOk result (IsReady (M.view m.new) f.new w.new) }
{
    switch_if_waiting(m, f, w)?;
    store_active(m, f, w)?;
    *f = fetch_scheduled(m)?;
    Ok(())
}
