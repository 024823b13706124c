ghost use Rattle.std.specs.Prelude.{◌≡◌, ◌<◌, ◌≤◌, ◌+◌, true, IfOk};
ghost use Rattle.st_model.specs.Values.{word};
ghost use Rattle.st_model.specs.Blocks.{start_of, enter_block, value_with_words, primitive_value, passing, value_with_fields, primitive_value_with};
ghost use Rattle.st_model.specs.inside.Calls.{itself};
ghost use Rattle.st_control.specs.inside.Passed.{first_of, passing_of};
ghost use Rattle.st_frames.specs.inside.Rows.{RowReads, RowDoes, RowTries, Takes, tried_changes, block_changes};

use crate::passing::Passing;
use st_frames::{
    Registers, Tried, check_class, drop_words, fetch_integer, positive_small, small, small_integer,
    switch, top, under,
};
use st_memory::Objects;
use st_model::{Dead, PageObject, Word};

/// What is passed to a block that takes n arguments, and has fields for them.
#[tactic(auto, using(crate::proofs::Valued::starts), unfolding(st_model::specs::Blocks::start_of))]
fn start_of<O: Objects>(m: &O, r: &Registers, block: Word, n: u32) -> Result<Passing, Dead>
    requires size { n ≤ 65533 }
    ensures does { RowReads O.Objects.own (start_of O.names (word block) n) first_of m.now r.now result }
    ensures block { IfOk result (λ p. p.block ≡ block) }
    ensures count { IfOk result (λ p. p.count ≡ n) }
{
    check_class(m, r, block, PageObject::BlockContextClass)?;
    let fields = m.count_fields(block)?;
    let x = m.fetch_field(block, 3)?;
    let arguments = positive_small(m, r, x)?;
    if arguments != n {
        return Err(Dead::Field);
    }
    let first = fetch_integer(m, block, 4)?;
    if fields < 6 + n {
        return Err(Dead::Sp);
    }
    Ok(Passing {
        block,
        count: n,
        first,
    })
}

/// A block becomes the active context, with what is passed to it on its stack; the one that was active is its caller.
#[tactic(auto, using(crate::proofs::Valued::entering), unfolding(st_model::specs::Blocks::enter_block))]
fn enter_block<O: Objects>(m: &mut O, r: &mut Registers, passing: Passing) -> Result<(), Dead>
    requires room { 5 ≤ O.room m.old }
    ensures does { RowDoes O.Objects.own
        (enter_block O.names (word passing.block) passing.count passing.first)
        itself m.old r.old result m.new r.new }
    ensures takes { Takes O.Objects.own 5 m.old m.new }
{
    m.store_field(passing.block, 1, small_integer(passing.first))?;
    m.store_field(passing.block, 2, small(passing.count))?;
    m.store_field(passing.block, 0, r.active)?;
    switch(m, r, passing.block)
}

/// A block's value, where its arguments stand at the top of the stack, and the block below them.
#[tactic(auto, using(crate::proofs::Valued::integers), unfolding(st_model::specs::Blocks::value_with_words))]
fn value_with_words<O: Objects>(m: &mut O, r: &mut Registers, passing: Passing) -> Result<(), Dead>
    requires room { 6 ≤ O.room m.old }
    ensures does { RowDoes O.Objects.own
        (value_with_words O.names (word passing.block) passing.count passing.first)
        (λ x. true) m.old r.old result m.new r.new }
    ensures takes { Takes O.Objects.own 6 m.old m.new }
{
    let from = (r.sp + 1).saturating_sub(passing.count);
    m.transfer(passing.count, r.active, from, passing.block, 6)?;
    drop_words(m, r, passing.count + 1)?;
    enter_block(m, r, passing)
}

/// Primitive 81: the value of the receiver, a block, with n arguments.
#[tactic(auto, using(crate::proofs::Valued::values), unfolding(st_model::specs::Blocks::primitive_value, st_model::specs::Blocks::value_if_any))]
pub fn primitive_value<O: Objects>(m: &mut O, r: &mut Registers, n: u32) -> Result<Tried, Dead>
    requires few { n < 16384 }
    requires room { block_changes ≤ O.room m.old }
    ensures does { RowTries O.Objects.own (primitive_value O.names n) m.old r.old result m.new r.new }
    ensures takes { Takes O.Objects.own (tried_changes block_changes result) m.old m.new }
{
    let block = under(m, r, n)?;
    match start_of(m, r, block, n) {
        Ok(passing) => {
            value_with_words(m, r, passing)?;
            Ok(Tried::Done)
        }
        Err(_) => Ok(Tried::Failed),
    }
}

/// How the fields of an Array are passed to a block.
#[tactic(auto, using(st_frames::proofs::Doing::rows), unfolding(st_model::specs::Blocks::passing))]
fn passing<O: Objects>(m: &O, r: &Registers, block: Word, array: Word) -> Result<Passing, Dead>
    ensures does { RowReads O.Objects.own (passing O.names (word block) (word array))
        passing_of m.now r.now result }
    ensures block { IfOk result (λ p. p.block ≡ block) }
{
    check_class(m, r, array, PageObject::ArrayClass)?;
    let count = m.count_fields(array)?;
    start_of(m, r, block, count)
}

/// A block's value, where its arguments are the fields of an Array, which stands at the top of the stack, and the block below it.
#[tactic(auto, using(crate::proofs::Valued::integers), unfolding(st_model::specs::Blocks::value_with_fields))]
fn value_with_fields<O: Objects>(
    m: &mut O,
    r: &mut Registers,
    array: Word,
    passing: Passing,
) -> Result<(), Dead>
    requires room { 6 ≤ O.room m.old }
    ensures does { RowDoes O.Objects.own
        (value_with_fields O.names (word passing.block) (word array) (passing_of passing))
        (λ x. true) m.old r.old result m.new r.new }
    ensures takes { Takes O.Objects.own 6 m.old m.new }
{
    m.transfer(passing.count, array, 0, passing.block, 6)?;
    drop_words(m, r, 2)?;
    enter_block(m, r, passing)
}

/// Primitive 82: the value of the receiver, a block, with the fields of the argument, an Array.
#[tactic(auto, using(crate::proofs::Valued::values), unfolding(st_model::specs::Blocks::primitive_value_with, st_model::specs::Blocks::value_with_if_any))]
pub fn primitive_value_with<O: Objects>(m: &mut O, r: &mut Registers) -> Result<Tried, Dead>
    requires room { block_changes ≤ O.room m.old }
    ensures does { RowTries O.Objects.own (primitive_value_with O.names) m.old r.old result m.new r.new }
    ensures takes { Takes O.Objects.own (tried_changes block_changes result) m.old m.new }
{
    let block = under(m, r, 1)?;
    let array = top(m, r)?;
    match passing(m, r, block, array) {
        Ok(passing) => {
            value_with_fields(m, r, array, passing)?;
            Ok(Tried::Done)
        }
        Err(_) => Ok(Tried::Failed),
    }
}
