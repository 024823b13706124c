// The beginning of a machine.
ghost use Rattle.std.specs.Prelude.{◌≡◌, ◌+◌, true, Ok, Option, Result, IfOk, IfErr};
ghost use Rattle.st_model.specs.{Objects.nil, Machine.empty_world, Start.idle_state};
ghost use Rattle.st_kernel_text.specs.inside.Views.{start_of};
ghost use Rattle.st_kernel.specs.{Starting.begin_by, inside.Answered.IsBegun, inside.Found.IsMissing};
ghost use Rattle.st_kernel.specs.inside.Following.{IsQuiet, Ends};

use crate::finding::{global_value, method_of};
use crate::scheduling::{Run, in_new_process};
use st_frames::{Frame, World, fetch_scheduled, load};
use st_kernel_text::Start;
use st_memory::Memory;
use st_model::{Dead, Oop, Word};

/// The registers before they are fetched: all name nil.
const IDLE: Frame = Frame {
    active: Oop::NIL,
    home: Oop::NIL,
    method: Oop::NIL,
    receiver: Oop::NIL,
    ip: 0,
    sp: 5,
};

/// Begins the first process by a start, in an empty world, and fetches the registers from it, or says that there is no room for it
/// and its context. Dead where the start isn't found, or there is no scheduler.
pub(crate) fn start_process<M: Memory>(
    m: &mut M,
    world: &World,
    start: &Start,
) -> Result<bool, Dead>
    requires quiet { IsQuiet (M.view m.old) }
    requires world { world.now ≡ empty_world nil }
    ensures begins { let v = M.view m.old in
        Ends ((begin_by v.head (start_of start.now)).run (idle_state v)) result (M.view m.new) }
    ensures begun { result ≡ Ok true → IsBegun (M.view m.new) }
    ensures missing { IfErr result (λ dead. IsMissing (M.view m.old) (start_of start.now)) }
{
    let receiver = global_value(m, &start.receiver)?;
    let method = method_of(m, receiver, &start.selector)?;
    let class = global_value(m, b"Process".as_slice())?;
    let run = Run {
        method: Word::from(method),
        receiver: Word::from(receiver),
    };
    let registers = load(m, &IDLE, world);
    if !in_new_process(m, &registers, Word::from(class), run)? {
        return Ok(false);
    }
    fetch_scheduled(m)?;
    Ok(true)
}
