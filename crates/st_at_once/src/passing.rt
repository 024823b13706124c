ghost use Rattle.std.specs.Prelude.{◌≡◌, ◌<◌};
ghost use Rattle.st_model.specs.{Values.word, Machine.used, Steps.transfer};
ghost use Rattle.st_model.specs.Table.{table};
ghost use Rattle.st_model.specs.inside.Calls.{Changes, itself};
ghost use Rattle.st_control.specs.inside.Borrowed.{fixed_of};

use crate::near::Near;
use st_memory::{Memory, Objects, transfer_live_fields};
use st_model::{Dead, Word};

impl<'a, M: Memory> Near<'a, M> {
    /// Stores a field of an object in a field of another.
    #[inline(always)]
    #[tactic(auto, using(st_model::proofs::Runs::runs), unfolding(st_model::specs::Steps::transfer, st_model::specs::Steps::fetch_fields, st_model::specs::Steps::store_fields))]
    pub(crate) fn transfer_field(
        &mut self,
        source: Word,
        from: u32,
        target: Word,
        to: u32,
    ) -> Result<(), Dead>
        ensures transfers { Changes (transfer table 1 (word source) from (word target) to) itself
            (M.view self.old.memory.now).objects (M.view self.old.memory.now).head
            result (M.view self.new.memory.now).objects }
        ensures used { used table (M.view self.new.memory.now).objects
            ≡ used table (M.view self.old.memory.now).objects }
        ensures head { (M.view self.new.memory.now).head ≡ (M.view self.old.memory.now).head }
        ensures fixed { fixed_of (M.view self.new.memory.now) self.new.memory.ghost_name
            ≡ fixed_of (M.view self.old.memory.now) self.old.memory.ghost_name }
    {
        let x = self.fetch_field(source, from)?;
        self.store(target, to, x)
    }

    /// Stores two fields of an object in fields of another, once both are fetched.
    #[inline(always)]
    #[tactic(auto, using(st_model::proofs::Runs::runs, crate::proofs::TwoFields::two_fields), unfolding(st_model::specs::Steps::transfer))]
    pub(crate) fn transfer_pair(
        &mut self,
        source: Word,
        from: u32,
        target: Word,
        to: u32,
    ) -> Result<(), Dead>
        requires small { (from < 65536) × (to < 65536) }
        ensures transfers { Changes (transfer table 2 (word source) from (word target) to) itself
            (M.view self.old.memory.now).objects (M.view self.old.memory.now).head
            result (M.view self.new.memory.now).objects }
        ensures used { used table (M.view self.new.memory.now).objects
            ≡ used table (M.view self.old.memory.now).objects }
        ensures head { (M.view self.new.memory.now).head ≡ (M.view self.old.memory.now).head }
        ensures fixed { fixed_of (M.view self.new.memory.now) self.new.memory.ghost_name
            ≡ fixed_of (M.view self.old.memory.now) self.old.memory.ghost_name }
    {
        let first = self.fetch_field(source, from)?;
        let second = self.fetch_field(source, from + 1)?;
        self.store(target, to, first)?;
        self.store(target, to + 1, second)
    }

    /// Stores n fields of one object in fields of another, once all of them are fetched. As much is used as before, also if that
    /// dies.
    #[tactic(auto, using(st_memory::proofs::Wide::bounded))]
    pub(crate) fn transfer_fields(
        &mut self,
        n: u32,
        source: Word,
        from: u32,
        target: Word,
        to: u32,
    ) -> Result<(), Dead>
        ensures transfers { Changes (transfer table n (word source) from (word target) to) itself
            (M.view self.old.memory.now).objects (M.view self.old.memory.now).head
            result (M.view self.new.memory.now).objects }
        ensures used { used table (M.view self.new.memory.now).objects
            ≡ used table (M.view self.old.memory.now).objects }
        ensures head { (M.view self.new.memory.now).head ≡ (M.view self.old.memory.now).head }
        ensures fixed { fixed_of (M.view self.new.memory.now) self.new.memory.ghost_name
            ≡ fixed_of (M.view self.old.memory.now) self.old.memory.ghost_name }
    {
        if n == 1 {
            return self.transfer_field(source, from, target, to);
        }
        if n == 2 && from < 65536 && to < 65536 {
            return self.transfer_pair(source, from, target, to);
        }
        transfer_live_fields(self.memory, n, source, from, target, to)
    }
}
