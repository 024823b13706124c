ghost use Rattle.std.specs.Prelude.{◌≡◌, true};
ghost use Rattle.st_model.specs.{Values.{value, word}, Table.table, Steps.are_there};
ghost use Rattle.st_frames.specs.{inside.Rows.registers_in, inside.Shown.{IsFrame, StaysFrame, registers_of}};

use crate::looking::look;
use crate::near::Near;
use st_frames::{Frame, Registers, hold};
use st_memory::Memory;
use st_model::{Oop, Word};

/// Whether a word is a pointer.
#[inline(always)]
fn is_pointer(w: Word, o: Oop) -> bool
    ensures { result ≡ true → word w ≡ value o }
{
    w.0 == u32::from(o.0)
}

/// Whether the registers name what they named.
#[inline(always)]
fn names_same(r: &Registers, f: &Frame) -> bool
    ensures active { result ≡ true → word r.now.active ≡ value f.now.active }
    ensures home { result ≡ true → word r.now.home ≡ value f.now.home }
    ensures method { result ≡ true → word r.now.method ≡ value f.now.method }
    ensures receiver { result ≡ true → word r.now.receiver ≡ value f.now.receiver }
{
    is_pointer(r.active, f.active)
        && is_pointer(r.home, f.home)
        && is_pointer(r.method, f.method)
        && is_pointer(r.receiver, f.receiver)
}

/// Keeps the instruction and the stack pointer in the frame.
#[inline(always)]
pub(crate) fn copy_pointers(f: &mut Frame, r: &Registers)
    ensures { f.new ≡ record f.old { ip = r.now.ip; sp = r.now.sp } }
{
    f.ip = r.ip;
    f.sp = r.sp;
}

impl<'a, M: Memory> Near<'a, M> {
    /// Keeps the registers that a row leaves, all of which are there. Where they name what they named, that is held already; else
    /// they are held at their places, and what is known is looked at anew.
    #[inline(never)]
    pub fn hold_moved(&mut self, f: &mut Frame, r: &Registers)
        requires there { are_there table (M.view self.old.memory.now).objects (registers_in r.now) ≡ true }
        requires frame { IsFrame (M.view self.old.memory.now) f.old }
        ensures same { registers_of f.new ≡ registers_in r.now }
        ensures objects { (M.view self.new.memory.now).objects ≡ (M.view self.old.memory.now).objects }
        ensures head { (M.view self.new.memory.now).head ≡ (M.view self.old.memory.now).head }
        ensures frame { StaysFrame (M.view self.old.memory.now) (M.view self.new.memory.now) f.new }
        ensures same_memory { self.new.memory.ghost_name ≡ self.old.memory.ghost_name }
    {
        if names_same(r, f) {
            copy_pointers(f, r);
        } else {
            *f = hold(self.memory, r);
            self.known = look(self.memory, f, self.known.code);
        }
    }
}
