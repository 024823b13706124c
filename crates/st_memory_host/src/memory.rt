// A host in memory. It keeps each deed, so that a stop may leave all that the contract of a host allows.
ghost use Rattle.std.specs.Prelude.{◌≡◌, ◌⊎◌, ◌↔◌, ◌++◌, ◌∷◌, [], ◌+◌, ◌-◌, ◌<◌, ◌≤◌, ℕ, min, List, length, take, reverse, IsTrue, true, IfOk, OnOk, OnErr, IsErr, IsSome, Option, Some, None, vec_len, vec_capacity};
ghost use Rattle.st_host.specs.Counts.{one_more, Rises, HasCause};
ghost use Rattle.st_memory_host.specs.declared.memory.Next.TheVariants.{Does, Fails, Stops};
ghost use Rattle.st_memory_host.specs.inside.HostState.{comes_first};
ghost use Rattle.st_host.specs.Files.{length_of, bytes_of, IsRead};

use crate::log::{Entry, Kind, append, append_file, append_said, window};
use crate::replay::{Leave, replayed};
use st_host::{Host, HostFault, SayFault};
use std::alloc::{AllocError, Global};
use std::marker::Model;

/// How a call goes on that changes something.
#[derive(Clone, Copy, Drop)]
enum Next {
    Does,
    Fails,
    Stops(u64),
}

// Whether a stop within a call, or as it ends, comes before another one.
fn comes_first(call: u64, within: Option<u64>, last: u64, other: Option<u64>) -> bool
    ensures { result ≡ comes_first call within last other }
{
    match (within, other) {
        (within, None) => call < last || call == last && within.is_some(),
        (None, Some(_)) => call < last,
        (Some(a), Some(b)) => call < last || call == last && a < b,
    }
}

/// A host in memory, whose calls fail where it is told to.
///
/// Calls of a host's methods are counted from 1 over all methods. A call fails exactly where [`MemHost::fail`]
/// names its number, where it comes after a stop of [`MemHost::stop_after`], where one of [`MemHost::stop_within`]
/// comes within it, or where it passes the room that [`MemHost::room_for`] made. A call that fails changes nothing
/// but the counts, unless a stop comes within it.
#[derive(Drop)]
pub struct MemHost {
    log: Vec<Entry>,
    arena: Vec<u8>,
    said: Vec<u8>,
    failing: Vec<u64>,
    last_call: u64,
    within: Option<u64>,
    calls: u64,
    bytes_left: u64,
    calls_left: u64,
    disk_faults: u64,
    say_faults: u64,
}

impl Model for MemHost {
    ghost use Rattle.std.specs.Prelude.{reverse};
    ghost use Rattle.st_memory_host.specs.inside.HostState.{HostState};
    ghost use Rattle.st_memory_host.specs.inside.Log.{deeds_of, IsWhole};

    ghost Value = { HostState };

    ghost view = { λ m. record {
      deeds = reverse (deeds_of m.log.items m.arena.items);
      calls = m.calls;
      failing = m.failing.items;
      last_call = m.last_call;
      within = m.within;
      bytes_left = m.bytes_left;
      calls_left = m.calls_left;
      disk_faults = m.disk_faults;
      say_faults = m.say_faults;
    } };

    ghost invariant = { λ m. IsWhole m.log m.arena m.said m.bytes_left m.calls_left };
}

impl MemHost {
    ghost use Rattle.st_memory_host.specs.inside.HostState.{fresh, counted, stopped, with_file, with_deed, IsNextFailing, IsNextTorn, IsStopping, PassesRoom, ReadsOrFails};
    ghost use Rattle.st_memory_host.specs.inside.Deeds.{Synced, Said, said_after, files_after};
    ghost use Rattle.st_memory_host.specs.inside.Leave.{IsStopped, with_done, with_copy};
    ghost use Rattle.st_memory_host.specs.inside.Log.{deed_of, IsWindow};

    /// A host without files, of which no call was made. It has room for nothing.
    pub fn new(alloc: Global) -> Result<MemHost, AllocError>
        ensures { IfOk result (λ host. host ≡ fresh) }
    {
        Ok(MemHost {
            log: Vec::new(alloc),
            arena: Vec::new(alloc),
            said: Vec::new(alloc),
            failing: Vec::new(alloc),
            last_call: u64::MAX,
            within: None,
            calls: 0,
            bytes_left: 0,
            calls_left: 0,
            disk_faults: 0,
            say_faults: 0,
        })
    }

    /// Makes the calls of these numbers fail, besides those that were named before.
    pub fn fail(&mut self, _alloc: Global, calls: &[u64]) -> Result<(), AllocError>
        ensures ok { OnOk result (self.new ≡ record self.old { failing = self.old.failing ++ calls.now }) }
        ensures err { OnErr result (self.new ≡ self.old) }
    {
        self.failing.extend_from_slice(calls)
    }

    /// Stops the host as the call of this number ends: each later one fails. A stop stays.
    pub fn stop_after(&mut self, call: u64)
        ensures { self.new ≡ stopped call None self.old }
    {
        self.stop(call, None);
    }

    /// Stops the host within the call of this number, after so many bytes of it, or at its end if it has fewer: that call and
    /// each later one fail. A write has written these bytes then, a `say` has said them, and a cut or a sync is done. Of two
    /// stops the first one stays.
    pub fn stop_within(&mut self, call: u64, bytes: u64)
        ensures { self.new ≡ stopped call (Some bytes) self.old }
    {
        self.stop(call, Some(bytes));
    }

    // Notes a stop, unless another one comes before it.
    fn stop(&mut self, call: u64, within: Option<u64>)
        ensures { self.new ≡ stopped call within self.old }
    {
        if comes_first(call, within, self.last_call, self.within) {
            self.last_call = call;
            self.within = within;
        }
    }

    /// Makes room for so many more bytes, and for so many more calls that change something. Only such a call takes
    /// room: one call, the bytes of its name, and the bytes that it writes or says.
    pub fn room_for(&mut self, _alloc: Global, bytes: u64, calls: u64) -> Result<(), AllocError>
        ensures ok { OnOk result (self.new ≡ record self.old {
          bytes_left = self.old.bytes_left + bytes;
          calls_left = self.old.calls_left + calls;
        }) }
        ensures err { OnErr result (self.new ≡ self.old) }
    {
        let bytes_left = self.bytes_left.checked_add(bytes).ok_or(AllocError)?;
        let calls_left = self.calls_left.checked_add(calls).ok_or(AllocError)?;
        self.arena.reserve(bytes_left as usize)?;
        self.said.reserve(bytes_left as usize)?;
        self.log.reserve(calls_left as usize)?;
        self.bytes_left = bytes_left;
        self.calls_left = calls_left;
        Ok(())
    }

    /// Puts a file there, in the place of one of the same name. It counts as synced, and takes no room.
    #[tactic(auto, using(crate::proofs::Appending::put_first))]
    pub fn put(&mut self, _alloc: Global, name: &str, bytes: &[u8]) -> Result<(), AllocError>
        ensures ok { OnOk result (self.new ≡ with_file name.now bytes.now self.old) }
        ensures err { OnErr result (self.new ≡ self.old) }
    {
        append_file(
            &mut self.log,
            &mut self.arena,
            self.bytes_left,
            self.calls_left,
            name.as_bytes(),
            bytes,
        )?;
        Ok(())
    }

    /// The bytes said.
    pub fn said(&self) -> &[u8]
        ensures { result.now ≡ said_after self.now.deeds }
    {
        &self.said
    }

    /// A host after a stop of this one, with what the stop left of its files. It has no room.
    pub fn after_stop(self, alloc: Global, how: Leave) -> Result<MemHost, AllocError>
        ensures { IfOk result (λ host. IsStopped how self host) }
    {
        let host = replayed(alloc, how, &self.log, &self.arena)?;
        Ok(host)
    }

    /// Does a deed besides the room.
    pub(crate) fn repeat(
        &mut self,
        alloc: Global,
        kind: Kind,
        name: &[u8],
        bytes: &[u8],
    ) -> Result<(), AllocError>
        ensures { OnOk result (self.new ≡ with_done (deed_of kind name.now bytes.now) self.old) }
    {
        self.room_for(alloc, (name.len() + bytes.len()) as u64, 1)?;
        self.add_deed(kind, name, bytes);
        Ok(())
    }

    /// The same to a file, which is synced behind it.
    pub(crate) fn repeat_synced(
        &mut self,
        alloc: Global,
        kind: Kind,
        name: &[u8],
        bytes: &[u8],
    ) -> Result<(), AllocError>
        ensures { OnOk result (self.new
            ≡ with_done (Synced name.now) (with_done (deed_of kind name.now bytes.now) self.old)) }
    {
        self.repeat(alloc, kind, name, bytes)?;
        self.repeat(alloc, Kind::Synced, name, &[])?;
        Ok(())
    }

    /// Puts a file there as it reads in another host, unless it is absent there.
    pub(crate) fn copy(
        &mut self,
        alloc: Global,
        from: &MemHost,
        name: &[u8],
    ) -> Result<(), AllocError>
        ensures { OnOk result (self.new ≡ with_copy name.now (files_after from.now.deeds name.now) self.old) }
    {
        let Some(length) = from.window(name, 0, &mut []) else {
            return Ok(());
        };
        let mut bytes = vec![in alloc; 0; length as usize]?;
        from.window(name, 0, &mut bytes);
        self.repeat(alloc, Kind::Put, name, &bytes)?;
        Ok(())
    }

    // The length of a file. The slice takes its bytes from a place on.
    #[tactic(auto, using(crate::proofs::Walking::files_after_walk))]
    fn window(&self, name: &[u8], at: u64, into: &mut [u8]) -> Option<u64>
        ensures length { result ≡ length_of (files_after self.now.deeds name.now) }
        ensures window { IsWindow (bytes_of (files_after self.now.deeds name.now)) at into.new }
    {
        window(&self.log, &self.arena, name, at, into)
    }

    // Counts a call, and says whether it is one of those that fail.
    fn count_call(&mut self) -> bool
        ensures failing { IsTrue result ↔ IsNextFailing self.old }
        ensures counted { self.new ≡ counted self.old }
    {
        self.calls = self.calls.saturating_add(1);
        self.failing.contains(&self.calls) || self.last_call < self.calls
    }

    // After how many bytes a stop comes within the call that was just counted.
    fn torn(&self) -> Option<u64>
        ensures some { (b : ℕ) → result ≡ Some b
            → (self.now.calls ≡ self.now.last_call) × (self.now.within ≡ Some b) }
        ensures none { result ≡ None
            → (self.now.calls ≡ self.now.last_call) × IsSome self.now.within → ⊥ }
    {
        if self.calls == self.last_call {
            self.within
        } else {
            None
        }
    }

    // Counts a disk fault.
    fn disk_fault(&mut self) -> HostFault
        ensures counted { self.new ≡ record self.old { disk_faults = one_more self.old.disk_faults } }
        ensures rises { Rises self.old.disk_faults self.new.disk_faults }
    {
        self.disk_faults = self.disk_faults.saturating_add(1);
        HostFault
    }

    // Counts a fault of `say`.
    fn say_fault(&mut self) -> SayFault
        ensures counted { self.new ≡ record self.old { say_faults = one_more self.old.say_faults } }
        ensures rises { Rises self.old.say_faults self.new.say_faults }
    {
        self.say_faults = self.say_faults.saturating_add(1);
        SayFault
    }

    // Says so many first bytes, for all of which there is room.
    #[tactic(auto, using(crate::proofs::Windows::take_least))]
    fn say_part(&mut self, bytes: &[u8], done: u64)
        requires calls { 0 < self.old.calls_left }
        requires bytes { length bytes.now ≤ self.old.bytes_left }
        ensures { let part = take done bytes.now in
            self.new ≡ with_deed (Said part) (length part) self.old }
    {
        let count = done.min(bytes.len() as u64) as usize;
        self.add_deed(Kind::Said, &[], &bytes[..count]);
    }

    // Begins a call that only reads.
    fn begin_read(&mut self) -> Result<(), HostFault>
        ensures exactly { ReadsOrFails self.old self.new result }
        ensures cause { HasCause self.old.disk_faults self.new.disk_faults result }
    {
        let failing = self.count_call();
        if failing || self.torn().is_some() {
            return Err(self.disk_fault());
        }
        Ok(())
    }

    // Begins a call that takes so many bytes of the room, and says whether it goes on, fails, or stops within.
    fn begin_deed(&mut self, bytes: u64) -> Next
        ensures does { result ≡ Does
            → (IsNextFailing self.old ⊎ PassesRoom self.old bytes ⊎ IsStopping self.old) → ⊥ }
        ensures fails { result ≡ Fails → IsNextFailing self.old ⊎ PassesRoom self.old bytes }
        ensures stops { (b : ℕ) → result ≡ Stops b → IsNextTorn self.old b }
        ensures room { (b : ℕ) → result ≡ Stops b → (PassesRoom self.old bytes → ⊥) }
        ensures counted { self.new ≡ counted self.old }
    {
        let failing = self.count_call();
        if failing || self.calls_left == 0 || self.bytes_left < bytes {
            return Next::Fails;
        }
        match self.torn() {
            Some(done) => Next::Stops(done),
            None => Next::Does,
        }
    }

    // Does a deed for which there is room.
    #[tactic(auto, using(crate::proofs::Appending::newest_first))]
    fn add_deed(&mut self, kind: Kind, name: &[u8], bytes: &[u8])
        requires calls { 0 < self.old.calls_left }
        requires bytes { length name.now + length bytes.now ≤ self.old.bytes_left }
        ensures { self.new
            ≡ with_deed (deed_of kind name.now bytes.now) (length name.now + length bytes.now) self.old }
    {
        append_said(&mut self.said, kind, bytes);
        append(&mut self.log, &mut self.arena, kind, name, bytes);
        self.bytes_left -= (name.len() + bytes.len()) as u64;
        self.calls_left -= 1;
    }
}

impl Host for MemHost {
    ghost use Rattle.st_memory_host.specs.inside.HostState.{ReadsOrFails, ChangesOrFails, SaysOrFails};
    ghost use Rattle.st_memory_host.specs.inside.Deeds.{Wrote, Tore, Cut, Synced, files_after, MayLeave, said_after, LeftSince};
    ghost use Rattle.st_memory_host.specs.inside.MemHost.{reads_now, now_counts, now_only};

    ghost is_told = { true };

    ghost files = { λ h. files_after h.deeds };

    ghost may_leave = { λ h. MayLeave h.deeds };

    ghost said = { λ h. said_after h.deeds };

    ghost moment = { λ h. length h.deeds };

    ghost left_since = { λ h t. LeftSince t h.deeds };

    ghost disk_faults = { λ h. h.disk_faults };

    ghost say_faults = { λ h. h.say_faults };

    ghost read_counts = { λ h n told. reads_now h.deeds n };

    ghost counts_now = { λ h t f s told le here. now_counts h.deeds t f s here };

    ghost only_now = { λ h f s told left. now_only h.deeds f s left };

    fn length(&mut self, name: &str) -> Result<Option<u64>, HostFault>
        ensures length { IfOk result (λ l. l ≡ length_of (files_after self.old.deeds name.now)) }
        ensures exactly { ReadsOrFails self.old self.new result }
        ensures cause { HasCause self.old.disk_faults self.new.disk_faults result }
    {
        self.begin_read()?;
        Ok(self.window(name.as_bytes(), 0, &mut []))
    }

    fn read_at(&mut self, name: &str, at: u64, into: &mut [u8]) -> Result<usize, HostFault>
        ensures read { IfOk result (λ k.
            IsRead (bytes_of (files_after self.old.deeds name.now)) at k into.new) }
        ensures within { IfOk result (λ k. k ≤ length into.old) }
        ensures exactly { ReadsOrFails self.old self.new result }
        ensures cause { HasCause self.old.disk_faults self.new.disk_faults result }
    {
        self.begin_read()?;
        let length = self.window(name.as_bytes(), at, into).unwrap_or(0);
        Ok(into.len().min(length.saturating_sub(at) as usize))
    }

    fn write_at(&mut self, name: &str, at: u64, bytes: &[u8]) -> Result<(), HostFault>
        ensures exactly { ChangesOrFails (Wrote name.now at bytes.now) (Tore name.now at bytes.now)
            (length name.now + length bytes.now) (at + length bytes.now)
            self.old self.new result }
        ensures cause { HasCause self.old.disk_faults self.new.disk_faults result }
    {
        let next = self.begin_deed((name.len() + bytes.len()) as u64);
        let Some(end) = at.checked_add(bytes.len() as u64) else {
            return Err(self.disk_fault());
        };
        match next {
            Next::Does => {
                self.add_deed(Kind::Wrote { end }, name.as_bytes(), bytes);
                Ok(())
            }
            Next::Fails => Err(self.disk_fault()),
            Next::Stops(done) => {
                self.add_deed(Kind::Tore { end, done }, name.as_bytes(), bytes);
                Err(self.disk_fault())
            }
        }
    }

    fn cut(&mut self, name: &str, len: u64) -> Result<(), HostFault>
        ensures exactly { ChangesOrFails (Cut name.now len) (λ b. Cut name.now len)
            (length name.now) len
            self.old self.new result }
        ensures cause { HasCause self.old.disk_faults self.new.disk_faults result }
    {
        match self.begin_deed(name.len() as u64) {
            Next::Does => {
                self.add_deed(Kind::Cut { len }, name.as_bytes(), &[]);
                Ok(())
            }
            Next::Fails => Err(self.disk_fault()),
            Next::Stops(_done) => {
                self.add_deed(Kind::Cut { len }, name.as_bytes(), &[]);
                Err(self.disk_fault())
            }
        }
    }

    fn sync(&mut self, name: &str) -> Result<(), HostFault>
        ensures exactly { ChangesOrFails (Synced name.now) (λ b. Synced name.now)
            (length name.now) 0
            self.old self.new result }
        ensures cause { HasCause self.old.disk_faults self.new.disk_faults result }
    {
        match self.begin_deed(name.len() as u64) {
            Next::Does => {
                self.add_deed(Kind::Synced, name.as_bytes(), &[]);
                Ok(())
            }
            Next::Fails => Err(self.disk_fault()),
            Next::Stops(_done) => {
                self.add_deed(Kind::Synced, name.as_bytes(), &[]);
                Err(self.disk_fault())
            }
        }
    }

    fn say(&mut self, bytes: &[u8]) -> Result<(), SayFault>
        ensures exactly { SaysOrFails bytes.now self.old self.new result }
        ensures cause { HasCause self.old.say_faults self.new.say_faults result }
    {
        match self.begin_deed(bytes.len() as u64) {
            Next::Does => {
                self.add_deed(Kind::Said, &[], bytes);
                Ok(())
            }
            Next::Fails => Err(self.say_fault()),
            Next::Stops(done) => {
                self.say_part(bytes, done);
                Err(self.say_fault())
            }
        }
    }
}
