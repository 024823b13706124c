ghost use Rattle.std.specs.Prelude.{◌≡◌, ◌≤◌, IfOk, OnOk, OnErr};
ghost use Rattle.st_model.specs.{Values.value, View.IsKnown, Table.table, Steps.{put, push, pop, top, under}};
ghost use Rattle.st_model.specs.{Contexts.store_context_registers, inside.Calls.itself};
ghost use Rattle.st_frames.specs.inside.Shown.{IsFrame, StaysFrame, FrameDoes, FrameReads};

use crate::fields::{count_fields, fetch_field, store_field};
use crate::frame::Frame;
use crate::words::{small, small_integer};
use st_memory::{Memory, Objects};
use st_model::{Dead, Oop, Word};

/// Puts x in a place of a context's stack: within its fields, and at most 16388.
#[tactic(auto, using(st_model::proofs::Runs::runs), unfolding(st_model::specs::Steps::put))]
fn put<M: Memory>(m: &mut M, f: &Frame, context: Oop, at: u32, x: Oop) -> Result<(), Dead>
    requires object { IsKnown (M.view m.old).objects (value context) }
    requires known { IsKnown (M.view m.old).objects (value x) }
    ensures puts { FrameDoes (put table (value context) at (value x))
        itself (M.view m.old) f.now result (M.view m.new) f.now }
    ensures held { (M.view m.new).held ≡ (M.view m.old).held }
    ensures err { OnErr result (M.view m.new ≡ M.view m.old) }
    ensures small { OnOk result (at ≤ 16388) }
{
    let fields = count_fields(m, context)?;
    if fields <= at {
        return Err(Dead::Sp);
    }
    if 16388 < at {
        return Err(Dead::Sp);
    }
    store_field(m, f, context, at, x)
}

/// The word at the top of the stack.
#[tactic(auto, using(crate::proofs::Shown::shows, crate::proofs::Known::registers), unfolding(st_model::specs::Steps::top))]
fn top<M: Memory>(m: &M, f: &Frame) -> Result<Oop, Dead>
    requires { IsFrame (M.view m.now) f.now }
    ensures top { FrameReads (top table) value (M.view m.now) f.now result }
    ensures known { IfOk result (λ x. IsKnown (M.view m.now).objects (value x)) }
    ensures above { OnOk result (6 ≤ f.now.sp) }
{
    if f.sp < 6 {
        return Err(Dead::Sp);
    }
    fetch_field(m, f.active, f.sp)
}

impl Frame {
    /// Stores the instruction pointer plus 1 and the stack pointer less 5 in the active context. Dead where that lacks
    /// one of the fields; the first may be stored then.
    pub fn store<M: Memory>(&self, m: &mut M) -> Result<(), Dead>
        requires frame { IsFrame (M.view m.old) self.now }
        ensures stores { FrameDoes (store_context_registers table)
            itself (M.view m.old) self.now result (M.view m.new) self.now }
        ensures frame { OnOk result (StaysFrame (M.view m.old) (M.view m.new) self.now) }
        ensures held { (M.view m.new).held ≡ (M.view m.old).held }
        ensures head { (M.view m.new).head ≡ (M.view m.old).head }
    {
        let context = Word::from(self.active);
        m.store_field(context, 1, small_integer(self.ip + 1))?;
        m.store_field(context, 2, small(self.sp - 5))
    }

    /// Pushes v on the active context's stack. Dead, with nothing stored, where the context has no place for it.
    #[tactic(auto, using(crate::proofs::Shown::shows, crate::proofs::Known::registers), unfolding(st_model::specs::Steps::push))]
    pub fn push<M: Memory>(&mut self, m: &mut M, v: Oop) -> Result<(), Dead>
        requires frame { IsFrame (M.view m.old) self.old }
        requires known { IsKnown (M.view m.old).objects (value v) }
        ensures pushes { FrameDoes (push table (value v))
            itself (M.view m.old) self.old result (M.view m.new) self.new }
        ensures frame { OnOk result (StaysFrame (M.view m.old) (M.view m.new) self.new) }
        ensures memory_stays { OnErr result (M.view m.new ≡ M.view m.old) }
        ensures registers_stay { OnErr result (self.new ≡ self.old) }
    {
        put(m, self, self.active, self.sp + 1, v)?;
        self.sp += 1;
        Ok(())
    }

    /// Pops the word at the top of the stack, which stays in its field. Dead where the stack is empty.
    #[tactic(auto, using(crate::proofs::Shown::shows), unfolding(st_model::specs::Steps::pop))]
    pub fn pop<M: Memory>(&mut self, m: &M) -> Result<Oop, Dead>
        requires frame { IsFrame (M.view m.now) self.old }
        ensures pops { FrameDoes (pop table)
            value (M.view m.now) self.old result (M.view m.now) self.new }
        ensures known { IfOk result (λ x. IsKnown (M.view m.now).objects (value x)) }
        ensures frame { OnOk result (IsFrame (M.view m.now) self.new) }
        ensures registers_stay { OnErr result (self.new ≡ self.old) }
    {
        let x = top(m, self)?;
        self.sp -= 1;
        Ok(x)
    }

    /// The word k words below the top of the stack. Dead where that lies below the stack.
    #[tactic(auto, using(crate::proofs::Shown::shows, crate::proofs::Known::registers), unfolding(st_model::specs::Steps::under))]
    pub fn under<M: Memory>(&self, m: &M, k: u32) -> Result<Oop, Dead>
        requires frame { IsFrame (M.view m.now) self.now }
        ensures under { FrameReads (under table k) value (M.view m.now) self.now result }
        ensures known { IfOk result (λ x. IsKnown (M.view m.now).objects (value x)) }
    {
        if self.sp - 5 <= k {
            return Err(Dead::Sp);
        }
        fetch_field(m, self.active, self.sp - k)
    }
}
