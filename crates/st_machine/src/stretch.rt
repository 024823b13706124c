ghost use Rattle.std.specs.Prelude.{◌≡◌, ◌≤◌, Ok, None, IfOk, OnOk};
ghost use Rattle.st_frames.specs.inside.{Rows.registers_in, Shown.{IsReady, registers_of, shown}};
ghost use Rattle.st_at_once.specs.inside.Room.{room_of};
ghost use Rattle.st_machine.specs.inside.{Cycling.{GoesCalmly, IsCalm}, Strides.GoesOn};

use crate::doing::{StretchEnd, do_straight, fetch, finish_calmly};
use st_at_once::{Near, bytecode_at_once};
use st_frames::{Frame, Registers, World, load};
use st_memory::Memory;
use st_model::{Dead, Deed};

/// A stretch of cycles whose bytecodes weren't foreseen.
#[derive(Clone, Copy)]
pub struct Stretch {
    /// How many cycles there were before the last one.
    pub done: u32,
    /// What is left of the last one, or what the machine died of in it; none if as many as were asked for are done.
    pub end: Result<Option<StretchEnd>, Dead>,
    /// The deed that is left to be done, if one is.
    pub left: Deed,
}

/// The next bytecode is done in line, or straight on if there is room for whatever it takes; and then what comes after it if the
/// world is calm: what nothing supports any more is dropped. Or the stretch ends here. While it goes on, the registers are those of
/// the frame.
#[inline(always)]
fn do_calmly<M: Memory>(
    near: &mut Near<M>,
    f: &mut Frame,
    r: &mut Registers,
) -> Result<Option<StretchEnd>, Dead>
    requires same { registers_in r.old ≡ registers_of f.old }
    requires ready { IsReady (M.view near.old.memory.now) f.old r.old.world.now }
    requires room { 1 ≤ room_of (M.view near.old.memory.now) }
    ensures step { GoesCalmly (shown (M.view near.old.memory.now) f.old r.old.world.now)
        r.new.left result
        (shown (M.view near.new.memory.now) f.new r.old.world.now) }
    ensures ready { IfOk result (λ end. IsReady (M.view near.new.memory.now) f.new r.old.world.now) }
    ensures same { result ≡ Ok None → registers_in r.new ≡ registers_of f.new }
    ensures room { result ≡ Ok None → 1 ≤ room_of (M.view near.new.memory.now) }
    ensures world { r.new.world.now ≡ r.old.world.now }
    ensures same_memory { near.new.memory.ghost_name ≡ near.old.memory.ghost_name }
{
    let code = fetch(near, f, r)?;
    let ip = r.ip;
    let sp = r.sp;
    if bytecode_at_once(near, f, r, code)? {
        return Ok(finish_calmly(near, r.world));
    }
    r.ip = ip;
    r.sp = sp;
    do_straight(near, f, r, code)
}

/// Does cycles in a calm world, at most n of them, up to the first that isn't all done: its bytecode is to be foreseen, leaves a
/// deed or little space, asks for something besides, or kills the machine. They go as those of the book's machine do from each
/// state over births that is shown.
pub fn go_on<M: Memory>(m: &mut M, f: &mut Frame, w: &World, n: u32) -> Stretch
    requires ready { IsReady (M.view m.old) f.old w.now }
    requires calm { IsCalm w.now }
    ensures goes { GoesOn (shown (M.view m.old) f.old w.now) result (shown (M.view m.new) f.new w.now) }
    ensures ready { OnOk result.end (IsReady (M.view m.new) f.new w.now) }
    ensures most { result.done ≤ n }
{
    let mut r = load(m, f, w);
    let mut near = Near::new(m, f);
    if !near.has_room(1) {
        return Stretch {
            done: 0,
            end: Ok(Some(StretchEnd::ToForesee)),
            left: Deed::Nothing,
        };
    }
    for done in 0..n {
        match do_calmly(&mut near, f, &mut r) {
            Ok(None) => {}
            Ok(Some(end)) => {
                return Stretch {
                    done,
                    end: Ok(Some(end)),
                    left: r.left,
                };
            }
            Err(cause) => {
                return Stretch {
                    done,
                    end: Err(cause),
                    left: r.left,
                };
            }
        }
    }
    Stretch {
        done: n,
        end: Ok(None),
        left: Deed::Nothing,
    }
}
