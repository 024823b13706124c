ghost use Rattle.std.specs.Prelude.{◌≤◌};
ghost use Rattle.st_frames.specs.inside.Shown.{IsFrame};

use crate::calls::are_first;
use crate::image::{Image, plan_of, ready};
use crate::reads::{are_bytes, are_counts, are_fields};
use st_at_once::Near;
use st_frames::Frame;
use st_memory::{Loader, Memory, Objects};
use st_model::{Dead, Word};
use std::alloc::AllocGlobal;
use std::process::Abort;
use std::test::Fail;

/// The context of image B, which has 18 fields, and its method without literals, whose five bytes begin with number 2.
const CONTEXT: Word = Word(62);

const METHOD: Word = Word(64);

/// The process.
const PROCESS: Word = Word(60);

/// What is read of context and method, and no more than they have.
const FIELDS: &[(Word, u32, Result<Word, Dead>)] = &[
    (CONTEXT, 3, Ok(METHOD)),
    (CONTEXT, 17, Ok(Word::NIL)),
    (CONTEXT, 18, Err(Dead::Field)),
    (METHOD, 0, Err(Dead::Kind)),
];

const BYTES: &[(Word, i32, Result<u8, Dead>)] = &[
    (METHOD, 1, Err(Dead::Ip)),
    (METHOD, 2, Ok(118)),
    (METHOD, 6, Ok(251)),
    (METHOD, 7, Err(Dead::Ip)),
    (METHOD, -1, Err(Dead::Ip)),
];

/// What is read of a field of the context once it was stored, and of it and the process once they were exchanged.
const STORED: &[(Word, u32, Result<Word, Dead>)] = &[(CONTEXT, 17, Ok(Word(7)))];

const EXCHANGED: &[(Word, u32, Result<Word, Dead>)] = &[
    (CONTEXT, 17, Err(Dead::Field)),
    (PROCESS, 17, Ok(Word(7))),
];

/// Whether of context and method the same is read near at hand as by a memory.
fn reads_near<O: Objects>(m: &O) -> bool {
    are_fields(m, FIELDS)
        && are_bytes(m, BYTES)
        && are_counts(m, &[(CONTEXT, Ok(18))])
        && m.literal(METHOD, 0) == Err(Dead::Field)
}

/// Whether a field of the context can be stored.
fn stores<O: Objects>(o: &mut O) -> bool
    requires { 1 ≤ O.room o.old }
{
    reads_near(o) && o.store_field(CONTEXT, 17, Word(7)) == Ok(()) && are_fields(o, STORED)
}

/// Whether after an exchange each of two words reads what the other had.
fn exchanges<O: Objects>(o: &mut O) -> bool
    requires { 1 ≤ O.room o.old }
{
    are_fields(o, STORED)
        && o.exchange(CONTEXT, PROCESS) == Ok(())
        && are_counts(o, &[(CONTEXT, Ok(4))])
        && are_fields(o, EXCHANGED)
}

/// A field of the context is stored near at hand, and stays as it is where that is settled.
fn changes_near<M: Memory>(m: &mut M, f: &Frame) -> bool
    requires { IsFrame (M.view m.old) f.now }
{
    let mut near = Near::new(m, f);
    let is_stored = near.has_room(1) && stores(&mut near);
    near.settle();
    is_stored && near.has_room(1) && exchanges(&mut near)
}

/// What was stored near at hand stands in the memory.
pub fn check_near<L: Loader>(rt: &(impl Abort + AllocGlobal)) -> Result<(), Fail> {
    let (mut loaded, _world) = ready::<L>(rt.alloc(), plan_of(Image::B))?;
    let is_near = reads_near(&loaded.memory) && changes_near(&mut loaded.memory, &loaded.frame);
    assert!(rt; is_near && are_first(&loaded.memory, 62, &[2, 62, 9, 2]));
    Ok(())
}
