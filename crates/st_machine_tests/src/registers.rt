//! Calls on registers and methods over a memory.

ghost use Rattle.st_frames.specs.inside.Shown.{IsFrame};

use crate::image::{Image, Parts, plan_of, ready};
use st_frames::{Frame, fetch};
use st_lookup::find;
use st_memory::{Loader, Memory};
use st_method::primitive;
use st_model::{Dead, Oop};
use std::alloc::AllocGlobal;
use std::process::Abort;
use std::test::Fail;

/// Words in place of image C's, by which the method has the two literals 16383 and 66 and one byte, which is next.
const WORDS: Parts<'static> = &[(316, &[15]), (335, &[5]), (337, &[66])];

/// Works the stack of the context, and stores its registers.
fn works_stack<M: Memory>(m: &mut M, frame: &mut Frame) -> bool
    requires { IsFrame (M.view m.old) frame.old }
{
    let selector = Oop(66);
    m.live(selector)
        && frame.push(m, selector) == Ok(())
        && frame.under(m, 0) == Ok(selector)
        && frame.under(m, 1) == Err(Dead::Sp)
        && frame.store(m) == Ok(())
        && frame.pop(m) == Ok(selector)
}

/// The registers that were stored.
const STORED: Frame = Frame {
    active: Oop(62),
    home: Oop(62),
    method: Oop(64),
    receiver: Oop::NIL,
    ip: 6,
    sp: 6,
};

/// A class, a selector, and the method that is found: image C's one, none for another selector, and no answer in an object that
/// is no class.
const FOUND: &[(Oop, Oop, Result<Option<Oop>, Dead>)] = &[
    (Oop(12), Oop(66), Ok(Some(Oop(72)))),
    (Oop(12), Oop(42), Ok(None)),
    (Oop(4), Oop(66), Err(Dead::Field)),
];

fn finds<M: Memory>(m: &M) -> bool {
    for (class, selector, method) in FOUND {
        if find(m, *class, *selector) != *method {
            return false;
        }
    }
    true
}

/// The first of the method's two literals is the integer 16383, whose lower 8 bits name primitive 255.
fn has_primitive<M: Memory>(m: &M) -> bool {
    let method = Oop(64);
    m.live(method) && m.kind(method).is_method() && primitive(m, method) == Ok(255)
}

/// The registers are fetched as they were stored, and none from an object that is no context.
fn reaches<M: Memory>(m: &mut M, frame: &mut Frame) -> bool
    requires { IsFrame (M.view m.old) frame.old }
{
    finds(m)
        && has_primitive(m)
        && works_stack(m, frame)
        && fetch(m, Oop(66)) == Err(Dead::Kind)
        && fetch(m, Oop(62)) == Ok(STORED)
}

pub fn check_registers<L: Loader>(rt: &(impl Abort + AllocGlobal)) -> Result<(), Fail> {
    let (length, parts, _) = plan_of(Image::C);
    let (mut loaded, _world) = ready::<L>(rt.alloc(), (length, parts, WORDS))?;
    assert!(rt; reaches(&mut loaded.memory, &mut loaded.frame));
    Ok(())
}
