// What a stop leaves of a host in memory: its deeds are done again, to one host as they were done, and to another so
// that it has what is left.
ghost use Rattle.std.specs.Prelude.{◌≡◌, ◌∷◌, [], length, reverse, List, IfOk, OnOk};
ghost use Rattle.st_memory_host.specs.inside.Deeds.{Deed};
ghost use Rattle.st_memory_host.specs.inside.Leave.{deeds_left, host_of};
ghost use Rattle.st_memory_host.specs.inside.Log.{deed_of, deeds_of, arena_size};
ghost use Rattle.st_memory_host.specs.inside.Replay.{IsReplay};

use crate::MemHost;
use crate::log::{Entry, Kind, split_first};
use std::alloc::{AllocError, Global};

/// What a stop leaves of each file: what it was at its last sync, what it reads as, or that with each byte written since
/// the sync as 0xFF.
#[derive(Clone, Copy, Drop)]
pub enum Leave {
    Old,
    New,
    Ones,
}

// A host that reads as the old one did, and a host that has what a stop leaves of it.
#[derive(Drop)]
struct Replay {
    how: Leave,
    reads: MemHost,
    left: MemHost,
}

impl Replay {
    // No deed is done yet.
    fn new(alloc: Global, how: Leave) -> Result<Replay, AllocError>
        ensures how { IfOk result (λ replay. replay.how ≡ how) }
        ensures reads { IfOk result (λ replay. replay.reads.deeds ≡ []) }
        ensures left { IfOk result (λ replay. IsReplay replay) }
    {
        Ok(Replay {
            how,
            reads: MemHost::new(alloc)?,
            left: MemHost::new(alloc)?,
        })
    }

    // Does one more deed.
    fn step(
        &mut self,
        alloc: Global,
        kind: Kind,
        name: &[u8],
        bytes: &[u8],
    ) -> Result<(), AllocError>
        requires { IsReplay self.old }
        ensures how { self.new.how ≡ self.old.how }
        ensures reads { OnOk result (self.new.reads.deeds
            ≡ deed_of kind name.now bytes.now ∷ self.old.reads.deeds) }
        ensures left { OnOk result (IsReplay self.new) }
    {
        self.reads.repeat(alloc, kind, name, bytes)?;
        match kind {
            Kind::Put => self.left.repeat(alloc, kind, name, bytes)?,
            Kind::Synced => self.left.copy(alloc, &self.reads, name)?,
            Kind::Tore { end, done } => {
                let count = bytes.len() as u64;
                let place = end.saturating_sub(count);
                let part = &bytes[..done.min(count) as usize];
                let kind = Kind::Wrote {
                    end: place + part.len() as u64,
                };
                match self.how {
                    Leave::Old => {}
                    Leave::New => self.left.repeat_synced(alloc, kind, name, part)?,
                    Leave::Ones => {
                        let ones = vec![in alloc; 0xFF; part.len()]?;
                        self.left.repeat_synced(alloc, kind, name, &ones)?;
                    }
                }
            }
            Kind::Wrote { end: _ } | Kind::Cut { len: _ } => match self.how {
                Leave::Old => {}
                Leave::New => self.left.repeat_synced(alloc, kind, name, bytes)?,
                Leave::Ones => {
                    let ones = vec![in alloc; 0xFF; bytes.len()]?;
                    self.left.repeat_synced(alloc, kind, name, &ones)?;
                }
            },
            Kind::Said => {}
        }
        Ok(())
    }
}

/// A host to which the deeds of a log were done again, as a stop after them leaves them.
#[tactic(auto, using(crate::proofs::Replaying::deed_done))]
pub(crate) fn replayed(
    alloc: Global,
    how: Leave,
    log: &[Entry],
    arena: &[u8],
) -> Result<MemHost, AllocError>
    requires { arena_size log.now ≡ length arena.now }
    ensures { IfOk result (λ host. host ≡ host_of (deeds_left how (reverse (deeds_of log.now arena.now)))) }
{
    let mut replay = Replay::new(alloc, how)?;
    let mut log = log;
    let mut arena = arena;
    while let Some(first) = split_first(log, arena) {
        replay.step(alloc, first.kind, first.name, first.bytes)?;
        log = first.later;
        arena = first.rest;
    }
    Ok(replay.left)
}
