ghost use Rattle.std.specs.Prelude.{◌≡◌, ◌<◌, ◌≤◌, ◌+◌};
ghost use Rattle.st_model.specs.Values.{word};
ghost use Rattle.st_model.specs.Contexts.{fill_context, new_context, pass_words, activate};
ghost use Rattle.st_model.specs.inside.Calls.{itself};
ghost use Rattle.st_frames.specs.inside.Rows.{RowDoes, Takes, activation_changes};

use crate::called::Called;
use st_frames::{Registers, drop_words, look_at_words, page, small, switch};
use st_memory::Objects;
use st_model::{Dead, PageObject, Word};

/// Fills a new context of the method: the active context as its sender, the first bytecode, the temporary count, and the method.
#[inline(always)]
#[tactic(auto, using(st_frames::proofs::Doing::rows), unfolding(st_model::specs::Contexts::fill_context))]
fn fill_context<O: Objects>(
    m: &mut O,
    r: &Registers,
    context: Word,
    called: Called,
) -> Result<(), Dead>
    requires room { 4 ≤ O.room m.old }
    ensures does { RowDoes O.Objects.own
        (fill_context O.names (word context) (word called.call.method) (word called.header.0))
        itself m.old r.now result m.new r.now }
    ensures takes { Takes O.Objects.own 4 m.old m.new }
{
    m.store_field(context, 0, r.active)?;
    m.store_field(context, 1, small(2 * called.header.literals() + 3))?;
    m.store_field(context, 2, small(called.header.temporaries()))?;
    m.store_field(context, 3, called.call.method)
}

/// A new context of the method.
#[inline(always)]
#[tactic(auto, using(st_frames::proofs::Doing::rows), unfolding(st_model::specs::Contexts::new_context))]
fn new_context<O: Objects>(m: &mut O, r: &Registers, called: Called) -> Result<Word, Dead>
    requires room { 5 ≤ O.room m.old }
    ensures does { RowDoes O.Objects.own
        (new_context O.names (word called.call.method) (word called.header.0))
        word m.old r.now result m.new r.now }
    ensures takes { Takes O.Objects.own 5 m.old m.new }
{
    let class = page(m, PageObject::MethodContextClass);
    let context = m.new_object(class, called.header.context_size())?;
    fill_context(m, r, context, called)?;
    Ok(context)
}

/// Receiver and n arguments go from the stack to fields 5 and on of the context.
#[inline(always)]
#[tactic(auto, using(st_frames::proofs::Doing::rows), unfolding(st_model::specs::Contexts::pass_words))]
fn pass_words<O: Objects>(m: &mut O, r: &mut Registers, context: Word, n: u32) -> Result<(), Dead>
    requires few { n < 16384 }
    requires room { 1 ≤ O.room m.old }
    ensures does { RowDoes O.Objects.own (pass_words O.names (word context) n)
        itself m.old r.old result m.new r.new }
    ensures takes { Takes O.Objects.own 1 m.old m.new }
{
    m.transfer(n + 1, r.active, r.sp.saturating_sub(n), context, 5)?;
    drop_words(m, r, n + 1)
}

/// A new context of the method becomes the active one. Dead where it has no places for the arguments or the temporary variables.
#[tactic(auto, using(st_frames::proofs::Doing::checks), unfolding(st_model::specs::Contexts::activate))]
pub fn activate<O: Objects>(m: &mut O, r: &mut Registers, called: Called) -> Result<(), Dead>
    requires room { activation_changes ≤ O.room m.old }
    ensures does { RowDoes O.Objects.own
        (activate O.names (word called.call.method) (word called.header.0) called.call.arguments)
        itself m.old r.old result m.new r.new }
    ensures takes { Takes O.Objects.own activation_changes m.old m.new }
{
    look_at_words(m, r, called.call.arguments)?;
    let size = called.header.context_size();
    if size < 6 + called.call.arguments {
        return Err(Dead::Sp);
    }
    if size < 6 + called.header.temporaries() {
        return Err(Dead::Sp);
    }
    let context = new_context(m, r, called)?;
    pass_words(m, r, context, called.call.arguments)?;
    switch(m, r, context)
}
