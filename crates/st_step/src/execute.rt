ghost use Rattle.std.specs.Prelude.{◌≤◌};
ghost use Rattle.st_model.specs.{Sends.{call_of, call_if_any}};
ghost use Rattle.st_model.specs.Executing.{execute, execute_if_any};
ghost use Rattle.st_frames.specs.inside.Rows.{RowEnds, Takes, execution_changes};

use crate::flags::{activated, by_flag};
use crate::numbers::respond_or_perform;
use st_control::{Called, method_primitive};
use st_frames::{Registers, RowEnd};
use st_memory::Objects;
use st_method::Header;
use st_model::{Call, Dead};

/// Executes the method that was called.
#[tactic(auto, using(st_frames::proofs::Doing::rows), unfolding(st_model::specs::Executing::execute, st_model::specs::Executing::execute_by, st_model::specs::Executing::respond_by_extension, st_model::specs::Executing::or_activate))]
pub fn execute<O: Objects>(m: &mut O, r: &mut Registers, call: Call) -> Result<RowEnd, Dead>
    requires room { execution_changes ≤ O.room m.old }
    ensures does { RowEnds O.Objects.own (execute O.names (call_of call)) m.old r.old result m.new r.new }
    ensures takes { Takes O.Objects.own execution_changes m.old m.new }
{
    let header = Header(m.method_header(call.method)?);
    let called = Called { call, header };
    if header.flag() != 7 {
        return by_flag(m, r, called);
    }
    let primitive = method_primitive(m, r, call.method)?;
    match respond_or_perform(m, r, primitive, call.arguments)? {
        Some(end) => Ok(end),
        None => activated(m, r, called),
    }
}

/// Executes what was called, if anything was.
#[tactic(auto, using(st_frames::proofs::Doing::rows), unfolding(st_model::specs::Executing::execute_if_any))]
pub fn execute_if_any<O: Objects>(
    m: &mut O,
    r: &mut Registers,
    call: Option<Call>,
) -> Result<RowEnd, Dead>
    requires room { execution_changes ≤ O.room m.old }
    ensures does { RowEnds O.Objects.own (execute_if_any O.names (call_if_any call))
        m.old r.old result m.new r.new }
    ensures takes { Takes O.Objects.own execution_changes m.old m.new }
{
    match call {
        Some(call) => execute(m, r, call),
        None => Ok(RowEnd::Went),
    }
}
