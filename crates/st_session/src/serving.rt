ghost use Rattle.std.specs.Prelude.{◌≡◌, None, Some, IfSome};
ghost use Rattle.st_chunk.specs.Definitions.{IsDefinition};
ghost use Rattle.st_chunk.specs.declared.request.Request.TheVariants.{Browse as Browsing, Define as Defining};
ghost use Rattle.st_chunk.specs.{inside.ScriptDefinitions.definition_of, Lines.IsInRange};
ghost use Rattle.st_chunk.specs.Scripts.{IsBrowsed, IsDefined, asked_at, asked_by};
ghost use Rattle.st_install.specs.{Defining.installed, inside.Prepareds.IsPrepared};
ghost use Rattle.st_session.specs.{Answers.{answer, definition_course}, Keeping.in_a_store, Sessions.follow};
ghost use Rattle.st_session.specs.inside.Standing.{MayGoOn, Serves};

use crate::answering::{answer_dead, answer_living};
use crate::browsing::answer_named;
use crate::kept::SessionState;
use st_call::{Reply, say_reply};
use st_chunk::{LentDefinition, Reader, Request};
use st_host::Host;
use st_install::{Prepared, Unprepared, carry_out, prepare};
use st_memory::Memory;
use st_protocol::Status;
use std::alloc::Global;

/// Keeps a definition that is prepared, and then installs and acknowledges it.
fn accept<H: Host, M: Memory>(
    alloc: Global,
    host: &mut H,
    kept: &mut SessionState<M>,
    definition: &LentDefinition<'_>,
    prepared: Prepared,
) -> Result<(), Status>
    requires good { IsDefinition (definition_of definition.now) }
    requires prepared { IsPrepared (M.view kept.old.machine.memory) (definition_of definition.now) prepared }
    requires go_on { MayGoOn M.view kept.old }
    requires alive { kept.old.machine.death ≡ None }
    ensures { Serves M.view H.Host.own
        (λ p. definition_course in_a_store installed p.being p.kept (definition_of definition.now))
        (host.new ≡ host.old) kept.old host.old result kept.new host.new }
{
    let selector = &prepared.selector;
    match kept.archive.accept(alloc, host, definition, selector) {
        Ok(()) => {
            let selector = carry_out(kept.machine.memory_mut(), prepared);
            let reply = Reply::Accepted {
                class: definition.class,
                meta: definition.meta,
                selector: &selector,
            };
            say_reply(host, reply)
        }
        Err(status) => Err(status),
    }
}

/// Keeps and installs a definition in a machine that isn't dead, or says why it is refused.
fn define<H: Host, M: Memory>(
    alloc: Global,
    host: &mut H,
    kept: &mut SessionState<M>,
    definition: &LentDefinition<'_>,
) -> Result<(), Status>
    requires good { IsDefinition (definition_of definition.now) }
    requires go_on { MayGoOn M.view kept.old }
    requires alive { kept.old.machine.death ≡ None }
    ensures { Serves M.view H.Host.own
        (λ p. definition_course in_a_store installed p.being p.kept (definition_of definition.now))
        (host.new ≡ host.old) kept.old host.old result kept.new host.new }
{
    let unprepared = match prepare(alloc, kept.machine.memory(), definition) {
        Ok(prepared) => return accept(alloc, host, kept, definition, prepared),
        Err(unprepared) => unprepared,
    };
    match unprepared {
        Unprepared::Refused(why) => say_reply(host, Reply::Refused(why)),
        Unprepared::OutOfMemory => Err(Status::OutOfMemory),
    }
}

/// Answers what is asked for, once the reader has told it, where the machine isn't dead.
fn answer_request<H: Host, M: Memory>(
    alloc: Global,
    host: &mut H,
    kept: &mut SessionState<M>,
    reader: &Reader,
    request: Request,
) -> Result<(), Status>
    requires browsed { request ≡ Browsing → IsBrowsed reader.now.place }
    requires defined { request ≡ Defining → IsDefined reader.now.place }
    requires range { IsInRange request }
    requires go_on { MayGoOn M.view kept.old }
    requires alive { kept.old.machine.death ≡ None }
    ensures { Serves M.view H.Host.own
        (λ p. answer in_a_store installed p (asked_at reader.now.place request)) (host.new ≡ host.old)
        kept.old host.old result kept.new host.new }
{
    match request {
        Request::Browse => answer_named(alloc, host, kept, reader.ask()),
        Request::Define => define(alloc, host, kept, &reader.definition()),
        _ => answer_living(host, kept, request),
    }
}

/// Answers what the reader tells to be asked for, if anything is. Here it is asked whether the machine is dead, for all of them.
pub(crate) fn follow<H: Host, M: Memory>(
    alloc: Global,
    host: &mut H,
    kept: &mut SessionState<M>,
    reader: &Reader,
    request: Option<Request>,
) -> Result<(), Status>
    requires browsed { request ≡ Some Browsing → IsBrowsed reader.now.place }
    requires defined { request ≡ Some Defining → IsDefined reader.now.place }
    requires range { IfSome request IsInRange }
    requires go_on { MayGoOn M.view kept.old }
    ensures { Serves M.view H.Host.own
        (λ p. follow in_a_store installed p (asked_by (reader.now, request))) (host.new ≡ host.old)
        kept.old host.old result kept.new host.new }
{
    match request {
        Some(request) => match kept.machine.death() {
            Some(cause) => answer_dead(host, kept, cause, request),
            None => answer_request(alloc, host, kept, reader, request),
        },
        None => Ok(()),
    }
}
