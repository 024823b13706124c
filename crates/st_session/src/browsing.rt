ghost use Rattle.std.specs.Prelude.{◌≡◌, None};
ghost use Rattle.st_chunk.specs.Asks.{Source, ask_of, side_of};
ghost use Rattle.st_session.specs.{Answers.browse_course, Browsing.asked_text, inside.Starving.TellsOrStarves};
ghost use Rattle.st_session.specs.{Sources.{last_text, shown_text}, Keeping.in_a_store};
ghost use Rattle.st_session.specs.inside.Standing.{MayGoOn, Serves};
ghost use Rattle.st_call.specs.inside.Telling.{Tells};

use crate::debugging::run_until;
use crate::kept::SessionState;
use st_browse::{Side, SourceFault, browse_line, browse_source};
use st_call::{Reply, say_reply};
use st_changes::Changes;
use st_chunk::{LentAsk, LentSide as Lent};
use st_host::{Host, SayFault};
use st_memory::Memory;
use st_protocol::Status;
use std::alloc::{AllocError, Global};

/// Says what a memory shows of what is asked for, and these definitions of a method's text, or that it is missing.
fn say_asked<H: Host, M: Memory>(
    host: &mut H,
    m: &M,
    changes: &Changes,
    ask: LentAsk<'_>,
) -> Result<(), Status>
    ensures { let text = asked_text (M.view m.now) (last_text changes.now.listed) (ask_of ask.entry) in
        Tells H.Host.own text host.old host.new result }
{
    match browse_line(m, changes, ask, host) {
        Ok(true) => Ok(()),
        Ok(false) => say_reply(host, Reply::Missing),
        Err(SayFault) => Err(Status::SayFault),
    }
}

/// Says the text of a class's method: that of its last definition among these, or else one that is made of its code; or that there is
/// none. Without memory nothing is said.
fn say_source<H: Host, M: Memory>(
    alloc: Global,
    host: &mut H,
    m: &M,
    changes: &Changes,
    side: Lent<'_>,
    selector: &[u8],
) -> Result<(), Status>
    ensures { let v = M.view m.now in let ask = Source (side_of side.entry) selector.now in
        let text = asked_text v (shown_text v changes.now.listed) ask in
        TellsOrStarves H.Host.own text host.old host.new result }
{
    let class = match side.class.to_vec(alloc) {
        Ok(class) => class,
        Err(AllocError) => return Err(Status::OutOfMemory),
    };
    let side = Side {
        class,
        meta: side.meta,
    };
    match browse_source(alloc, m, changes, &side, selector, host) {
        Ok(true) => Ok(()),
        Ok(false) => say_reply(host, Reply::Missing),
        Err(SourceFault::Disk) => Err(Status::DiskFault),
        Err(SourceFault::Say) => Err(Status::SayFault),
        Err(SourceFault::OutOfMemory) => Err(Status::OutOfMemory),
    }
}

/// Answers a line that names what it asks for, where the machine isn't dead.
pub(crate) fn answer_named<H: Host, M: Memory>(
    alloc: Global,
    host: &mut H,
    kept: &mut SessionState<M>,
    ask: LentAsk<'_>,
) -> Result<(), Status>
    requires go_on { MayGoOn M.view kept.old }
    requires alive { kept.old.machine.death ≡ None }
    ensures { Serves M.view H.Host.own
        (λ p. browse_course in_a_store p.being p.kept (ask_of ask.entry)) (host.new ≡ host.old)
        kept.old host.old result kept.new host.new }
{
    match ask {
        LentAsk::Until(cycles, side, selector) => { run_until(host, kept, cycles, side, selector) }
        LentAsk::Source(side, selector) => say_source(
            alloc,
            host,
            kept.machine.memory(),
            kept.archive.changes(),
            side,
            selector,
        ),
        _ => say_asked(host, kept.machine.memory(), kept.archive.changes(), ask),
    }
}
