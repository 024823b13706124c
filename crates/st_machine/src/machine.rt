ghost use Rattle.std.specs.{Prelude.{◌≡◌, Some, None, Err, OnErr}, Borrow.sem};
ghost use Rattle.st_model.specs.Show.{Shows, raised};
ghost use Rattle.st_frames.specs.inside.{Coming.HasPlace, Shown.{IsReady, shown}};
ghost use Rattle.st_machine.specs.{inside.Machines.lends_memory, inside.Asked.{ComesFrom, SavesFrom, death_by}};
ghost use Rattle.st_machine.specs.{Prepared.PreparesFrom, inside.Runs.{EndsFrom, CountsCycles, death_of}};
ghost use Rattle.st_machine.specs.declared.ending.RunEnd.TheVariants.{Dead as DeadEnd};

use crate::coming::come;
use crate::ending::RunEnd;
use crate::preparing::prepare;
use crate::running;
use crate::saving::save;
use st_frames::{Frame, Loaded, World};
use st_memory::Memory;
use st_model::{Dead, Event, InputFull};

/// A machine: its objects, its registers, and what lies round it; and, once it is dead, the cause. A run asks that it is
/// dead, or ready: the memory holds the registers at their places, and what the world names. `boot` and `run` leave it so;
/// who changes the objects through `memory_mut` owes it again.
#[derive(Drop)]
pub struct Machine<M: Memory> {
    memory: M,
    frame: Frame,
    world: World,
    death: Option<Dead>,
}

impl<M: Memory> Machine<M> {
    /// A machine over a memory with registers, in a world. It shows births: its objects, by rising pointer.
    pub fn boot(loaded: Loaded<M>, world: World) -> Machine<M>
        requires ready { IsReady (M.view loaded.memory) loaded.frame world }
        ensures ready { IsReady (M.view result.memory) result.frame result.world }
        ensures memory { M.view result.memory ≡ M.view loaded.memory }
        ensures frame { result.frame ≡ loaded.frame }
        ensures world { result.world ≡ world }
        ensures alive { result.death ≡ None }
        ensures shows { let state = shown (M.view result.memory) result.frame result.world in
            Shows state (raised state) }
    {
        Machine {
            memory: loaded.memory,
            frame: loaded.frame,
            world,
            death: None,
        }
    }

    /// Does n cycles, or those up to the first that doesn't go on. It ends as the book's machine does from each state over
    /// births that the machine shows, and shows then what that comes to: objects, registers and world. A dead machine stays
    /// as it is.
    pub fn run(&mut self, n: u32) -> RunEnd
        requires ready { self.old.death ≡ None
            → IsReady (M.view self.old.memory) self.old.frame self.old.world }
        ensures ready { self.new.death ≡ None
            → IsReady (M.view self.new.memory) self.new.frame self.new.world }
        ensures ends { let first = shown (M.view self.old.memory) self.old.frame self.old.world in
            let last = shown (M.view self.new.memory) self.new.frame self.new.world in
            self.old.death ≡ None → EndsFrom n first result last }
        ensures death { self.old.death ≡ None → self.new.death ≡ death_of result }
        ensures dead { (cause : _) → self.old.death ≡ Some cause
            → (result ≡ DeadEnd 0 cause) × (self.new ≡ self.old) }
        ensures counts { CountsCycles n result }
    {
        if let Some(cause) = self.death {
            return RunEnd::Dead { done: 0, cause };
        }
        let end = running::run(&mut self.memory, &mut self.frame, &mut self.world, n);
        if let RunEnd::Dead { done: _, cause } = end {
            self.death = Some(cause);
        }
        end
    }

    /// An event comes: an input word, a place of the mouse, whose numbers are at most 16383, or the time of a clock. It does what
    /// it does in the book's machine from each state over births that the machine shows. The input is full, and nothing changes,
    /// where it is a word and 256 wait, or where it has a signal added and 4096 are pending.
    pub fn event(&mut self, e: Event) -> Result<(), InputFull>
        requires alive { self.old.death ≡ None }
        requires ready { IsReady (M.view self.old.memory) self.old.frame self.old.world }
        requires place { HasPlace e }
        ensures comes { ComesFrom e (shown (M.view self.old.memory) self.old.frame self.old.world)
            result (shown (M.view self.new.memory) self.new.frame self.new.world) }
        ensures full { OnErr result (shown (M.view self.new.memory) self.new.frame self.new.world
            ≡ shown (M.view self.old.memory) self.old.frame self.old.world) }
        ensures ready { IsReady (M.view self.new.memory) self.new.frame self.new.world }
        ensures alive { self.new.death ≡ None }
    {
        come(&mut self.memory, &self.frame, &mut self.world, e)
    }

    /// Makes the machine one that an image can be written of: a process switch that waits is carried out, the active context is
    /// stored with its process, the registers are fetched again from there, and what nothing supports is dropped. It does what
    /// saving does from each state over births that the machine shows. Where that dies the machine is dead of that cause, and a
    /// dead machine stays as it is.
    pub fn save(&mut self) -> Result<(), Dead>
        requires ready { self.old.death ≡ None
            → IsReady (M.view self.old.memory) self.old.frame self.old.world }
        ensures ready { self.new.death ≡ None
            → IsReady (M.view self.new.memory) self.new.frame self.new.world }
        ensures saves { let first = shown (M.view self.old.memory) self.old.frame self.old.world in
            let last = shown (M.view self.new.memory) self.new.frame self.new.world in
            self.old.death ≡ None → SavesFrom first result last }
        ensures death { self.old.death ≡ None → self.new.death ≡ death_by result }
        ensures dead { (cause : _) → self.old.death ≡ Some cause
            → (result ≡ Err cause) × (self.new ≡ self.old) }
    {
        if let Some(cause) = self.death {
            return Err(cause);
        }
        let saved = save(&mut self.memory, &mut self.frame, &mut self.world);
        if let Err(cause) = saved {
            self.death = Some(cause);
        }
        saved
    }

    /// Does what comes before the next bytecode: makes the signals that are pending, and carries out a process switch that waits.
    /// It does what the first two parts of a cycle do from each state over births that the machine shows, and answers the cause
    /// where they die. The cycle that follows is the one that would have followed without this, by `prepared_goes_on`. A dead
    /// machine stays as it is.
    pub fn prepare(&mut self) -> Option<Dead>
        requires ready { self.old.death ≡ None
            → IsReady (M.view self.old.memory) self.old.frame self.old.world }
        ensures ready { self.new.death ≡ None
            → IsReady (M.view self.new.memory) self.new.frame self.new.world }
        ensures prepares { let first = shown (M.view self.old.memory) self.old.frame self.old.world in
            let last = shown (M.view self.new.memory) self.new.frame self.new.world in
            self.old.death ≡ None → PreparesFrom first result last }
        ensures death { self.old.death ≡ None → self.new.death ≡ result }
        ensures dead { (cause : _) → self.old.death ≡ Some cause
            → (result ≡ Some cause) × (self.new ≡ self.old) }
    {
        if let Some(cause) = self.death {
            return Some(cause);
        }
        let died = prepare(&mut self.memory, &mut self.frame, &mut self.world);
        self.death = died;
        died
    }

    /// The objects, to be changed.
    pub fn memory_mut(&mut self) -> &mut M
        ensures* writes_back { sem 𝓛 (lends_memory M.row self.entry result) }
        ensures value { result.now ≡ self.old.memory }
    {
        &mut self.memory
    }

    /// The objects.
    pub fn memory(&self) -> &M
        ensures { result.now ≡ self.now.memory }
    {
        &self.memory
    }

    /// The registers.
    pub fn frame(&self) -> Frame
        ensures { result ≡ self.now.frame }
    {
        self.frame
    }

    /// What lies round the machine.
    pub fn world(&self) -> &World
        ensures { result.now ≡ self.now.world }
    {
        &self.world
    }

    /// The cause of which it is dead.
    pub fn death(&self) -> Option<Dead>
        ensures { result ≡ self.now.death }
    {
        self.death
    }
}
