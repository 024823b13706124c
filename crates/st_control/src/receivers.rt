ghost use Rattle.std.specs.Prelude.{◌≡◌, ◌<◌, ◌≤◌, ◌+◌};
ghost use Rattle.st_model.specs.inside.Calls.{itself};
ghost use Rattle.st_model.specs.Executing.{answer_field};
ghost use Rattle.st_model.specs.Arithmetic.{equivalence, receiver_class, flush_cache};
ghost use Rattle.st_frames.specs.inside.Rows.{RowMoves, RowDoes, Takes};

use crate::arithmetic::answer_pair;
use st_frames::{Registers, drop_words, look_at_words, page, pop, push, top, under};
use st_memory::Objects;
use st_model::{Dead, PageObject};

/// Whether receiver and argument are the same word takes their place (primitive 110).
#[tactic(auto, using(st_frames::proofs::Doing::rows), unfolding(st_model::specs::Arithmetic::equivalence, st_model::specs::Primitives::truth))]
pub fn equivalence<O: Objects>(m: &mut O, r: &mut Registers) -> Result<(), Dead>
    requires room { 1 ≤ O.room m.old }
    ensures does { RowDoes O.Objects.own (equivalence O.names) itself m.old r.old result m.new r.new }
    ensures takes { Takes O.Objects.own 1 m.old m.new }
{
    let receiver = under(m, r, 1)?;
    let argument = top(m, r)?;
    if receiver.same(argument) {
        let answer = page(m, PageObject::TrueObject);
        answer_pair(m, r, answer)
    } else {
        let answer = page(m, PageObject::FalseObject);
        answer_pair(m, r, answer)
    }
}

/// The receiver's class takes its place (primitive 111).
#[tactic(auto, using(st_frames::proofs::Doing::rows), unfolding(st_model::specs::Arithmetic::receiver_class, st_model::specs::Primitives::answer_with, st_model::specs::Primitives::pop_words))]
pub fn receiver_class<O: Objects>(m: &mut O, r: &mut Registers) -> Result<(), Dead>
    requires room { 1 ≤ O.room m.old }
    ensures does { RowDoes O.Objects.own (receiver_class O.names) itself m.old r.old result m.new r.new }
    ensures takes { Takes O.Objects.own 1 m.old m.new }
{
    let receiver = top(m, r)?;
    let class = m.fetch_class(receiver)?;
    pop(m, r)?;
    push(m, r, class)
}

/// The n arguments leave, and the receiver stays (primitive 89).
#[tactic(auto, using(st_frames::proofs::Doing::rows), unfolding(st_model::specs::Arithmetic::flush_cache))]
pub fn flush_cache<O: Objects>(m: &O, r: &mut Registers, n: u32) -> Result<(), Dead>
    requires few { n < 32768 }
    ensures does { RowMoves O.Objects.own (flush_cache O.names n) itself m.now r.old result r.new }
{
    look_at_words(m, r, n)?;
    drop_words(m, r, n)
}

/// A field of the word at the top takes its place.
#[tactic(auto, using(st_frames::proofs::Doing::rows), unfolding(st_model::specs::Executing::answer_field))]
pub fn answer_field<O: Objects>(m: &mut O, r: &mut Registers, i: u32) -> Result<(), Dead>
    requires room { 1 ≤ O.room m.old }
    ensures does { RowDoes O.Objects.own (answer_field O.names i) itself m.old r.old result m.new r.new }
    ensures takes { Takes O.Objects.own 1 m.old m.new }
{
    let object = pop(m, r)?;
    let answer = m.fetch_field(object, i)?;
    push(m, r, answer)
}
