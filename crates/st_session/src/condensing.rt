//! The command `condense`.

ghost use Rattle.std.specs.Prelude.{IsTrue, IfErr};
ghost use Rattle.st_host.specs.Runs.{Spares};
ghost use Rattle.st_store.specs.Names.{IsNoFileOf};
ghost use Rattle.st_protocol.specs.Statuses.{Counts, StatusHasCause};
ghost use Rattle.st_recover.specs.{Commits.Commit, inside.Archives.IsListOf};
ghost use Rattle.st_session.specs.{Condensings.{IsKeptAs, DoesCondense, CondenseEnds}, Exports.IsOfExporting};

use crate::opening_refusal::refuse_opening;
use crate::reading::status_of;
use st_call::{Reply, report_status, say_reply};
use st_changes::Changes;
use st_host::{FileFault, Host};
use st_memory::Loader;
use st_protocol::Status;
use st_recover::reopen;
use st_store::Store;
use std::alloc::Global;

/// Drops the definitions of a store that later ones supersede, and says how many there were and are.
fn condense_store<H: Host>(
    alloc: Global,
    host: &mut H,
    store: Store,
    changes: &Changes,
) -> Result<(), Status>
    requires list_of { IsListOf store changes.now }
    ensures does { (c : Commit) → IsTrue H.is_told → IsKeptAs H.Host.own host.old store changes.now.listed c
        → DoesCondense H.Host.own store.name c host.old host.new result }
    ensures counts { Counts H.Host.own ⊥ host.old host.new result }
    ensures kind { IfErr result IsOfExporting }
    ensures spares { Spares H.Host.own (IsNoFileOf store.name) host.old host.new }
{
    match st_changes::condense(alloc, host, store, changes) {
        Ok(condensed) => say_reply(
            host,
            Reply::Condensed {
                before: condensed.before,
                after: condensed.after,
            },
        ),
        Err(FileFault::Disk) => Err(Status::DiskFault),
        Err(FileFault::OutOfMemory) => Err(Status::OutOfMemory),
    }
}

/// The command `condense`: opens a store, drops each definition before its last snapshot that a later one supersedes, whole or not at
/// all, and says how many definitions there were and are. Nothing is saved or run, and what the store opens as stays the same.
pub fn condense<H: Host, L: Loader>(alloc: Global, host: &mut H, store: &str) -> Status
    ensures ends { CondenseEnds H.Host.own store.now host.old host.new result }
    ensures cause { StatusHasCause H.Host.own ⊥ host.old host.new result }
{
    match reopen::<L, H>(alloc, host, store) {
        Ok(opened) => {
            let status = status_of(condense_store(alloc, host, opened.store, &opened.changes));
            report_status(host, status);
            status
        }
        Err(fault) => refuse_opening(host, fault),
    }
}
