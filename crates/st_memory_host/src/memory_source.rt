// A source in memory.
ghost use Rattle.std.specs.Prelude.{◌≡◌, ◌⊎◌, ◌≤◌, ◌<◌, [], length, IfOk};
ghost use Rattle.st_host.specs.Counts.{HasCause};

use st_host::{ReadFault, Source};
use std::alloc::{AllocError, Global};
use std::marker::Model;

/// A source in memory, whose calls fail where it is told to.
///
/// Calls are counted from 1. A call fails exactly where its number is one of those that were named. A call that
/// fails changes nothing but the counts.
#[derive(Drop)]
pub struct MemSource {
    bytes: Vec<u8>,
    taken: usize,
    piece: usize,
    failing: Vec<u64>,
    calls: u64,
    read_faults: u64,
}

impl Model for MemSource {
    ghost use Rattle.std.specs.Prelude.{◌<◌, ◌≤◌, length, drop};
    ghost use Rattle.st_memory_host.specs.inside.SourceState.{SourceState};

    ghost Value = { SourceState };

    ghost view = { λ s. record {
      remaining = drop s.taken s.bytes.items;
      piece = s.piece;
      calls = s.calls;
      failing = s.failing.items;
      read_faults = s.read_faults;
    } };

    ghost invariant = { λ s. (s.taken ≤ length s.bytes.items) × (0 < s.piece) };
}

impl MemSource {
    /// A source of these bytes that gives at most `piece` of them in a call, and whose calls of the numbers in `fail`
    /// fail.
    pub fn new(
        alloc: Global,
        bytes: &[u8],
        piece: usize,
        fail: &[u64],
    ) -> Result<MemSource, AllocError>
        requires { 0 < piece }
        ensures { IfOk result (λ source. source ≡ record {
          remaining = bytes.now;
          piece = piece;
          calls = 0;
          failing = fail.now;
          read_faults = 0;
        }) }
    {
        Ok(MemSource {
            bytes: Vec::from_slice(alloc, bytes)?,
            taken: 0,
            piece,
            failing: Vec::from_slice(alloc, fail)?,
            calls: 0,
            read_faults: 0,
        })
    }
}

impl Source for MemSource {
    ghost use Rattle.std.specs.Prelude.{true};
    ghost use Rattle.st_memory_host.specs.inside.SourceState.{TakesOrFails};

    ghost is_told = { true };

    ghost remaining = { λ s. s.remaining };

    ghost read_faults = { λ s. s.read_faults };

    fn take(&mut self, into: &mut [u8]) -> Result<usize, ReadFault>
        ensures within { IfOk result (λ k. k ≤ length into.old) }
        ensures end { IfOk result (λ k. k ≡ 0 → (length into.old ≡ 0) ⊎ (self.old.remaining ≡ [])) }
        ensures exactly { TakesOrFails into.new self.old self.new result }
        ensures cause { HasCause self.old.read_faults self.new.read_faults result }
    {
        self.calls = self.calls.saturating_add(1);
        if self.failing.contains(&self.calls) {
            self.read_faults = self.read_faults.saturating_add(1);
            return Err(ReadFault);
        }
        let rest = &self.bytes[self.taken..];
        let count = self.piece.min(into.len()).min(rest.len());
        into[..count].copy_from_slice(&rest[..count]);
        self.taken += count;
        Ok(count)
    }
}
