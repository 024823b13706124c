ghost use Rattle.std.specs.Prelude.{◌≡◌, ◌<◌, ◌≤◌, ◌+◌};
ghost use Rattle.st_model.specs.Values.{word};
ghost use Rattle.st_model.specs.Sends.{copy_arguments, argument_array, new_message, replace_by_message};
ghost use Rattle.st_model.specs.inside.Calls.{itself};
ghost use Rattle.st_frames.specs.inside.Rows.{RowDoes, Takes};

use crate::sent::Sent;
use st_frames::{Registers, drop_words, page, push};
use st_memory::Objects;
use st_model::{Dead, PageObject, Word};

/// The n words at the top of the stack go into an Array, the lowest first.
#[tactic(auto, using(st_frames::proofs::Doing::rows), unfolding(st_model::specs::Sends::copy_arguments))]
fn copy_arguments<O: Objects>(m: &mut O, r: &Registers, array: Word, n: u32) -> Result<(), Dead>
    requires few { n < 16384 }
    requires room { 1 ≤ O.room m.old }
    ensures does { RowDoes O.Objects.own (copy_arguments O.names (word array) n)
        itself m.old r.now result m.new r.now }
    ensures takes { Takes O.Objects.own 1 m.old m.new }
{
    m.transfer(n, r.active, (r.sp + 1).saturating_sub(n), array, 0)
}

/// A new Array of the n words at the top of the stack.
#[tactic(auto, using(st_frames::proofs::Doing::rows), unfolding(st_model::specs::Sends::argument_array))]
fn argument_array<O: Objects>(m: &mut O, r: &Registers, n: u32) -> Result<Word, Dead>
    requires few { n < 16384 }
    requires room { 9 ≤ O.room m.old }
    ensures does { RowDoes O.Objects.own (argument_array O.names n) word m.old r.now result m.new r.now }
    ensures takes { Takes O.Objects.own 9 m.old m.new }
{
    let class = page(m, PageObject::ArrayClass);
    let array = m.new_object(class, n)?;
    copy_arguments(m, r, array, n)?;
    Ok(array)
}

/// A new Message of a selector and an Array of arguments.
#[tactic(auto, using(st_frames::proofs::Doing::rows), unfolding(st_model::specs::Sends::new_message))]
fn new_message<O: Objects>(
    m: &mut O,
    r: &Registers,
    selector: Word,
    array: Word,
) -> Result<Word, Dead>
    requires room { 3 ≤ O.room m.old }
    ensures does { RowDoes O.Objects.own (new_message O.names (word selector) (word array))
        word m.old r.now result m.new r.now }
    ensures takes { Takes O.Objects.own 3 m.old m.new }
{
    let class = page(m, PageObject::MessageClass);
    let message = m.new_object(class, 2)?;
    m.store_field(message, 0, selector)?;
    m.store_field(message, 1, array)?;
    Ok(message)
}

/// A Message takes the place of the n arguments.
#[tactic(auto, using(st_frames::proofs::Doing::rows), unfolding(st_model::specs::Sends::replace_by_message))]
pub fn replace_by_message<O: Objects>(m: &mut O, r: &mut Registers, sent: Sent) -> Result<(), Dead>
    requires room { 13 ≤ O.room m.old }
    ensures does { RowDoes O.Objects.own (replace_by_message O.names (word sent.selector) sent.arguments)
        itself m.old r.old result m.new r.new }
    ensures takes { Takes O.Objects.own 13 m.old m.new }
{
    let array = argument_array(m, r, sent.arguments)?;
    let message = new_message(m, r, sent.selector, array)?;
    drop_words(m, r, sent.arguments)?;
    push(m, r, message)
}
