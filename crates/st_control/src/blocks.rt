ghost use Rattle.std.specs.Prelude.{◌≡◌, ◌<◌, ◌≤◌, ◌+◌, ◌≤ℤ◌, ◌+ℤ◌, pos, true, IfOk};
ghost use Rattle.st_model.specs.Values.{word, small_integer};
ghost use Rattle.st_model.specs.Blocks.{check_context, home_of_block, fill_block, new_block, primitive_block_copy, blocks};
ghost use Rattle.st_model.specs.inside.Calls.{itself};
ghost use Rattle.st_frames.specs.inside.Answering.{succeed_by};
ghost use Rattle.st_frames.specs.inside.Rows.{RowReads, RowDoes, RowTries, Takes, tried_changes, block_changes};

use crate::values::{primitive_value, primitive_value_with};
use st_frames::{
    Registers, Tried, answer_with, home_of, page, positive_small, small, small_integer, top, under,
};
use st_memory::Objects;
use st_model::{BlockPrimitive, Dead, PageObject, Word};

/// What a new block is made of.
#[derive(Clone, Copy)]
struct Shape {
    /// Its home context.
    home: Word,
    /// How many arguments it takes, as a SmallInteger.
    count: Word,
}

/// An instance of MethodContext or BlockContext.
#[tactic(auto, using(crate::proofs::Valued::contexts), unfolding(st_model::specs::Blocks::check_context))]
fn check_context<O: Objects>(m: &O, r: &Registers, v: Word) -> Result<(), Dead>
    ensures does { RowReads O.Objects.own (check_context O.names (word v)) itself m.now r.now result }
{
    let class = m.fetch_class(v)?;
    let method_context = page(m, PageObject::MethodContextClass);
    let block_context = page(m, PageObject::BlockContextClass);
    if class.same(method_context) || class.same(block_context) {
        Ok(())
    } else {
        Err(Dead::Kind)
    }
}

/// The home that a block of a context has, where a block that takes this number of arguments may be made.
#[tactic(auto, using(st_frames::proofs::Doing::checks), unfolding(st_model::specs::Blocks::home_of_block))]
fn home_of_block<O: Objects>(m: &O, r: &Registers, context: Word, count: Word) -> Result<Word, Dead>
    ensures does { RowReads O.Objects.own (home_of_block O.names (word context) (word count))
        word m.now r.now result }
    ensures within { IfOk result (λ home. r.now.ip ≤ℤ pos 16380) }
{
    check_context(m, r, context)?;
    positive_small(m, r, count)?;
    let home = home_of(m, context)?;
    let fields = m.count_fields(home)?;
    if fields < 6 {
        return Err(Dead::Field);
    }
    if 16380 < r.ip {
        return Err(Dead::Ip);
    }
    Ok(home)
}

/// The first instruction pointer of a new block, as it is stored: that of the byte behind the jump round its bytecodes.
fn first_pointer(r: &Registers) -> Word
    requires within { r.now.ip ≤ℤ pos 16380 }
    ensures { word result ≡ small_integer (r.now.ip +ℤ pos 3) }
{
    small_integer(r.ip + 3)
}

/// Fills a new block: its first bytecode is behind the jump round it, and its stack is empty.
#[tactic(auto, using(st_frames::proofs::Doing::rows), unfolding(st_model::specs::Blocks::fill_block))]
fn fill_block<O: Objects>(m: &mut O, r: &Registers, block: Word, shape: Shape) -> Result<(), Dead>
    requires within { r.now.ip ≤ℤ pos 16380 }
    requires room { 5 ≤ O.room m.old }
    ensures does { RowDoes O.Objects.own
        (fill_block O.names (word block) (word shape.home) (word shape.count))
        itself m.old r.now result m.new r.now }
    ensures takes { Takes O.Objects.own 5 m.old m.new }
{
    let first = first_pointer(r);
    m.store_field(block, 1, first)?;
    m.store_field(block, 2, small(0))?;
    m.store_field(block, 3, shape.count)?;
    m.store_field(block, 4, first)?;
    m.store_field(block, 5, shape.home)
}

/// A new BlockContext as large as its home.
#[tactic(auto, using(st_frames::proofs::Doing::rows), unfolding(st_model::specs::Blocks::new_block))]
fn new_block<O: Objects>(m: &mut O, r: &Registers, shape: Shape) -> Result<Word, Dead>
    requires within { r.now.ip ≤ℤ pos 16380 }
    requires room { 37 ≤ O.room m.old }
    ensures does { RowDoes O.Objects.own (new_block O.names (word shape.home) (word shape.count))
        word m.old r.now result m.new r.now }
    ensures takes { Takes O.Objects.own 37 m.old m.new }
{
    let class = page(m, PageObject::BlockContextClass);
    let fields = m.count_fields(shape.home)?;
    let block = m.new_object(class, fields)?;
    fill_block(m, r, block, shape)?;
    Ok(block)
}

/// A new block takes the place of receiver and argument.
#[tactic(auto, using(st_frames::proofs::Doing::rows), unfolding(st_frames::specs::inside::Answering::succeed_by, st_frames::specs::inside::Answering::succeed_with))]
fn answer_block<O: Objects>(m: &mut O, r: &mut Registers, shape: Shape) -> Result<(), Dead>
    requires within { r.old.ip ≤ℤ pos 16380 }
    requires room { 38 ≤ O.room m.old }
    ensures does { RowDoes O.Objects.own
        (succeed_by O.names 1 (new_block O.names (word shape.home) (word shape.count)))
        (λ x. true) m.old r.old result m.new r.new }
    ensures takes { Takes O.Objects.own 38 m.old m.new }
{
    let block = new_block(m, r, shape)?;
    answer_with(m, r, 1, block)
}

/// Primitive 80: a block of the receiver's home, which takes as many arguments as the argument says.
#[tactic(auto, using(st_frames::proofs::Tries::effects), unfolding(st_model::specs::Blocks::primitive_block_copy))]
pub fn primitive_block_copy<O: Objects>(m: &mut O, r: &mut Registers) -> Result<Tried, Dead>
    requires room { block_changes ≤ O.room m.old }
    ensures does { RowTries O.Objects.own (primitive_block_copy O.names) m.old r.old result m.new r.new }
    ensures takes { Takes O.Objects.own (tried_changes block_changes result) m.old m.new }
{
    let context = under(m, r, 1)?;
    let count = top(m, r)?;
    match home_of_block(m, r, context, count) {
        Ok(home) => {
            answer_block(m, r, Shape { home, count })?;
            Ok(Tried::Done)
        }
        Err(_) => Ok(Tried::Failed),
    }
}

/// Tries the primitive on blocks with so many arguments.
#[tactic(auto, unfolding(st_model::specs::Blocks::blocks))]
pub fn try_blocks<O: Objects>(
    m: &mut O,
    r: &mut Registers,
    primitive: BlockPrimitive,
    arguments: u32,
) -> Result<Tried, Dead>
    requires few { arguments < 16384 }
    requires room { block_changes ≤ O.room m.old }
    ensures does { RowTries O.Objects.own (blocks O.names arguments primitive)
        m.old r.old result m.new r.new }
    ensures takes { Takes O.Objects.own (tried_changes block_changes result) m.old m.new }
{
    match primitive {
        BlockPrimitive::BlockCopy => primitive_block_copy(m, r),
        BlockPrimitive::Value => primitive_value(m, r, arguments),
        BlockPrimitive::ValueWith => primitive_value_with(m, r),
    }
}
