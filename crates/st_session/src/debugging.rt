// Lines of a debugger.
ghost use Rattle.std.specs.Prelude.{◌≡◌, None};
ghost use Rattle.st_model.specs.{Show.show, Values.value};
ghost use Rattle.st_browse.specs.Asked.{method_of_side};
ghost use Rattle.st_chunk.specs.Asks.{side_of};
ghost use Rattle.st_debug.specs.Stack.{stack_text};
ghost use Rattle.st_call.specs.inside.Telling.{Tells};
ghost use Rattle.st_session.specs.{Answers.{going_on, until_course}, Browsing.memory_of, Keeping.in_a_store};
ghost use Rattle.st_session.specs.inside.Standing.{MayGoOn, Serves};

use crate::kept::SessionState;
use crate::saving::run;
use crate::watch::Watch;
use st_browse::find_method;
use st_call::{Reply, say_reply};
use st_chunk::LentSide;
use st_debug::frames;
use st_host::{Host, SayFault};
use st_machine::Machine;
use st_memory::Memory;
use st_protocol::Status;

/// Runs so many cycles, or up to the first bytecode of a class's method for a selector, from the second cycle on; or says that there is
/// no such method, which is sought once, before the first cycle.
pub(crate) fn run_until<H: Host, M: Memory>(
    host: &mut H,
    kept: &mut SessionState<M>,
    cycles: u32,
    side: LentSide<'_>,
    selector: &[u8],
) -> Result<(), Status>
    requires go_on { MayGoOn M.view kept.old }
    requires alive { kept.old.machine.death ≡ None }
    ensures { Serves M.view H.Host.own
        (λ p. going_on in_a_store (λ s c. until_course in_a_store cycles s c
        (method_of_side (memory_of (show s)) (side_of side.entry) selector.now)) p.being p.kept) ⊥
        kept.old host.old result kept.new host.new }
{
    match find_method(kept.machine.memory(), side, selector) {
        Some(method) => run(host, kept, Watch::Entry(method), cycles),
        None => say_reply(host, Reply::Missing),
    }
}

/// Says the stack.
pub(crate) fn say_stack<H: Host, M: Memory>(
    host: &mut H,
    machine: &Machine<M>,
) -> Result<(), Status>
    ensures { let text = stack_text (M.view machine.now.memory).objects (value machine.now.frame.active) in
        Tells H.Host.own text host.old host.new result }
{
    match frames(machine.memory(), &machine.frame(), host) {
        Ok(_) => Ok(()),
        Err(SayFault) => Err(Status::SayFault),
    }
}
