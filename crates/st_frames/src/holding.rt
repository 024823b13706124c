ghost use Rattle.std.specs.Prelude.{◌≡◌, true, IfOk, OnErr};
ghost use Rattle.st_model.specs.{Values.{value, word}, Machine.is_there, Steps.are_there};
ghost use Rattle.st_model.specs.{Contexts.{fetch_context_registers, fetch_scheduled_registers}, Table.table};
ghost use Rattle.st_model.specs.View.{IsKnown};
ghost use Rattle.st_frames.specs.inside.Rows.{registers_in, fetched_in};
ghost use Rattle.st_frames.specs.inside.Shown.{IsFrame, IsFrameOf, StaysFrame, FetchesFrame, registers_of};

use crate::context::read_scheduled_context;
use crate::fetched::Fetched;
use crate::frame::Frame;
use crate::reading::read_registers;
use crate::registers::Registers;
use crate::world::World;
use st_memory::Memory;
use st_model::{Dead, Deed, Oop, RootPlace, Word};

/// The registers, as the row of a bytecode works on them.
pub fn load<'a, M: Memory>(m: &M, f: &Frame, w: &'a World) -> Registers<'a>
    requires { IsFrame (M.view m.now) f.now }
    ensures registers { registers_in result ≡ registers_of f.now }
    ensures world { result.world.now ≡ w.now }
{
    Registers {
        active: Word(u32::from(f.active.0)),
        home: Word(u32::from(f.home.0)),
        method: Word(u32::from(f.method.0)),
        receiver: Word(u32::from(f.receiver.0)),
        ip: f.ip,
        sp: f.sp,
        world: w,
        left: Deed::Nothing,
        said: Word::NIL,
    }
}

/// The pointer of a word that is there.
#[inline(always)]
#[tactic(auto, using(crate::proofs::There::pointers))]
fn pointer<M: Memory>(_m: &M, w: Word) -> Oop
    requires { is_there table (M.view _m.now).objects (word w) ≡ true }
    ensures same { value result ≡ word w }
    ensures known { IsKnown (M.view _m.now).objects (value result) }
{
    Oop(w.0 as u16)
}

/// Holds the registers at their places.
#[inline(always)]
fn hold_frame<M: Memory>(m: &mut M, f: &Frame)
    requires { IsFrameOf (M.view m.old).objects f.now }
    ensures objects { (M.view m.new).objects ≡ (M.view m.old).objects }
    ensures head { (M.view m.new).head ≡ (M.view m.old).head }
    ensures devices { (M.view m.new).held.devices ≡ (M.view m.old).held.devices }
    ensures frame { IsFrame (M.view m.new) f.now }
{
    m.hold(RootPlace::Active, f.active);
    m.hold(RootPlace::Home, f.home);
    m.hold(RootPlace::Method, f.method);
    m.hold(RootPlace::Receiver, f.receiver);
}

/// The registers that a row leaves, all of which are there; they are held at their places.
#[inline(always)]
#[tactic(auto, using(crate::proofs::Homes::placed))]
pub fn hold<M: Memory>(m: &mut M, r: &Registers) -> Frame
    requires { are_there table (M.view m.old).objects (registers_in r.now) ≡ true }
    ensures same { registers_of result ≡ registers_in r.now }
    ensures objects { (M.view m.new).objects ≡ (M.view m.old).objects }
    ensures head { (M.view m.new).head ≡ (M.view m.old).head }
    ensures frame { StaysFrame (M.view m.old) (M.view m.new) result }
{
    let frame = Frame {
        active: pointer(m, r.active),
        home: pointer(m, r.home),
        method: pointer(m, r.method),
        receiver: pointer(m, r.receiver),
        ip: r.ip,
        sp: r.sp,
    };
    hold_frame(m, &frame);
    frame
}

/// The registers that were fetched, all of which are there; they are held at their places.
#[tactic(auto, using(crate::proofs::Homes::placed))]
fn hold_fetched<M: Memory>(m: &mut M, new: &Fetched) -> Frame
    requires { are_there table (M.view m.old).objects (fetched_in new.now) ≡ true }
    ensures same { registers_of result ≡ fetched_in new.now }
    ensures objects { (M.view m.new).objects ≡ (M.view m.old).objects }
    ensures head { (M.view m.new).head ≡ (M.view m.old).head }
    ensures frame { StaysFrame (M.view m.old) (M.view m.new) result }
{
    let frame = Frame {
        active: pointer(m, new.active),
        home: pointer(m, new.home),
        method: pointer(m, new.method),
        receiver: pointer(m, new.receiver),
        ip: new.ip,
        sp: new.sp,
    };
    hold_frame(m, &frame);
    frame
}

/// Fetches the registers from a context of this word, and holds them at their places.
fn fetch_word<M: Memory>(m: &mut M, context: Word) -> Result<Frame, Dead>
    ensures registers { FetchesFrame (fetch_context_registers table (word context))
        (M.view m.old) result (M.view m.new) }
    ensures objects { (M.view m.new).objects ≡ (M.view m.old).objects }
    ensures head { (M.view m.new).head ≡ (M.view m.old).head }
    ensures frame { IfOk result (StaysFrame (M.view m.old) (M.view m.new)) }
    ensures err { OnErr result ((M.view m.new).held ≡ (M.view m.old).held) }
{
    let new = read_registers(m, context)?;
    Ok(hold_fetched(m, &new))
}

/// Fetches the registers from a context, which becomes the active one, and holds them at their places. Dead, with
/// nothing held, where the context lacks them or its stack pointer is none of its places.
pub fn fetch<M: Memory>(m: &mut M, context: Oop) -> Result<Frame, Dead>
    ensures registers { FetchesFrame (fetch_context_registers table (value context))
        (M.view m.old) result (M.view m.new) }
    ensures objects { (M.view m.new).objects ≡ (M.view m.old).objects }
    ensures head { (M.view m.new).head ≡ (M.view m.old).head }
    ensures frame { IfOk result (StaysFrame (M.view m.old) (M.view m.new)) }
    ensures err { OnErr result ((M.view m.new).held ≡ (M.view m.old).held) }
{
    fetch_word(m, Word::from(context))
}

/// Fetches the registers from the context of the scheduler's active process, as `fetch` does.
pub fn fetch_scheduled<M: Memory>(m: &mut M) -> Result<Frame, Dead>
    ensures registers { FetchesFrame (fetch_scheduled_registers table) (M.view m.old) result (M.view m.new) }
    ensures objects { (M.view m.new).objects ≡ (M.view m.old).objects }
    ensures head { (M.view m.new).head ≡ (M.view m.old).head }
    ensures frame { IfOk result (StaysFrame (M.view m.old) (M.view m.new)) }
    ensures err { OnErr result ((M.view m.new).held ≡ (M.view m.old).held) }
{
    let context = read_scheduled_context(m)?;
    fetch_word(m, context)
}
