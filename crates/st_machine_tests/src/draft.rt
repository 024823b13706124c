//! A draft, beside the memory that it stands over.

ghost use Rattle.std.specs.Prelude.{◌≤◌, ◌+◌};

use crate::calls::are_used;
use crate::image::{Image, memory_of};
use crate::reads::{are_counts, are_fields};
use st_draft::Draft;
use st_memory::{Loader, Memory, Objects};
use st_model::{Dead, Word};
use std::alloc::AllocGlobal;
use std::process::Abort;

/// What a row may do: it makes two objects, and stores fields of them.
fn made<O: Objects>(o: &mut O) -> Result<(Word, Word), Dead>
    requires { 4 ≤ O.room o.old }
    ensures { O.room o.old ≤ O.room o.new + 4 }
{
    let class = Word::SMALL_INTEGER;
    let a = o.new_object(class, 3)?;
    o.store_field(a, 0, Word(7))?;
    o.store_field(a, 1, Word(4))?;
    let b = o.new_object(class, 3)?;
    Ok((a, b))
}

/// And it copies fields of them, and of an object that is there.
fn copied<O: Objects>(o: &mut O, a: Word, b: Word) -> Result<(), Dead>
    requires { 4 ≤ O.room o.old }
    ensures { O.room o.old ≤ O.room o.new + 4 }
{
    let there = Word(60);
    o.transfer(2, a, 0, b, 1)?;
    o.store_field(a, 0, b)?;
    o.transfer(2, b, 0, b, 1)?;
    o.transfer(3, there, 0, there, 1)
}

/// And at last it exchanges an object made for one that is there, and stores a field of what that is now.
fn exchanged<O: Objects>(o: &mut O, a: Word) -> Result<(), Dead>
    requires { 2 ≤ O.room o.old }
{
    let there = Word(60);
    o.exchange(a, there)?;
    o.store_field(a, 3, there)
}

/// What a row leaves: a names what was the object of three fields, whose own word names what was made.
fn does_row<O: Objects>(o: &mut O, a: Word, b: Word) -> bool
    requires { 10 ≤ O.room o.old }
{
    made(o) == Ok((a, b)) && copied(o, a, b) == Ok(()) && exchanged(o, a) == Ok(())
}

/// What is known after it, and reads that can't be.
fn knows_row<O: Objects>(o: &O, a: Word, b: Word) -> bool {
    let there = Word(60);
    let fields = [
        (there, 0, Ok(b)),
        (there, 1, Ok(Word(4))),
        (there, 2, Ok(Word::NIL)),
        (there, 3, Err(Dead::Field)),
        (b, 0, Ok(Word::NIL)),
        (b, 1, Ok(Word::NIL)),
        (b, 2, Ok(Word(7))),
        (a, 0, Ok(Word::NIL)),
        (a, 1, Ok(Word::NIL)),
        (a, 2, Ok(Word(62))),
        (a, 3, Ok(there)),
    ];
    are_fields(o, &fields)
        && are_counts(o, &[(a, Ok(4)), (there, Ok(3))])
        && o.literal(b, 0) == Err(Dead::Kind)
        && knows_words(o, a, b)
}

fn knows_words<O: Objects>(o: &O, a: Word, b: Word) -> bool {
    o.is_there(a)
        && o.is_there(b)
        && !o.is_there(Word(65540))
        && o.half_word(a) == 5
        && o.half_word(b) == 9
        && o.half_word(Word(60)) == 30
}

/// Whether a row can be done, and leaves that.
fn holds_row<O: Objects>(o: &mut O, a: Word, b: Word) -> bool
    requires { 10 ≤ O.room o.old }
{
    does_row(o, a, b) && knows_row(o, a, b)
}

/// A row over a draft answers as over the memory, which only the second changes.
fn rehearses<M: Memory>(m: &mut M) -> bool {
    let mut draft = Draft::new(m);
    let holds = holds_row(&mut draft, Word(65536), Word(65538));
    let demand = draft.demand();
    holds
        && (demand.entries, demand.words) == (2, 10)
        && are_used(m, 24, 78)
        && holds_row(m, Word(10), Word(18))
        && are_used(m, 26, 88)
}

pub fn check_drafts<L: Loader>(rt: &(impl Abort + AllocGlobal)) {
    let mut m = memory_of::<L>(rt.alloc(), Image::B, 26, 88).expect(rt, "an image");
    assert!(rt; rehearses(&mut m));
}
