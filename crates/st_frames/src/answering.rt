ghost use Rattle.std.specs.Prelude.{◌≡◌, ◌<◌, ◌≤◌, ◌+◌, ◌-◌, true, false, IfOk};
ghost use Rattle.st_model.specs.{Values.word, Primitives.{pop_words, answer_with}, inside.Calls.itself};
ghost use Rattle.st_model.specs.{Deeds.copies_pixels, Machine.Head, Table.Table};
ghost use Rattle.st_frames.specs.inside.Answering.{RowFollows, succeed_with};
ghost use Rattle.st_frames.specs.inside.Rows.{RowMoves, RowDoes, RowTries, Takes, row_state, is_done, deed_of_trial};

use crate::answer::Answer;
use crate::registers::Registers;
use crate::stack::{pop, push};
use crate::tried::Tried;
use st_memory::Objects;
use st_model::{Dead, Deed, Word};

/// Pops n words, the top one first.
#[tactic(auto, using(crate::proofs::Doing::rows, crate::proofs::Tries::pops))]
fn pop_words<O: Objects>(m: &O, r: &mut Registers, n: u32) -> Result<(), Dead>
    ensures does { RowMoves O.Objects.own (pop_words O.names n) itself m.now r.old result r.new }
{
    if n == 0 {
        return Ok(());
    }
    pop(m, r)?;
    pop_words(m, r, n - 1)
}

/// Pops receiver and n arguments, and pushes the answer.
#[tactic(auto, using(crate::proofs::Doing::rows), unfolding(st_model::specs::Primitives::answer_with))]
pub fn answer_with<O: Objects>(
    m: &mut O,
    r: &mut Registers,
    n: u32,
    answer: Word,
) -> Result<(), Dead>
    requires few { n < 256 }
    requires room { 1 ≤ O.room m.old }
    ensures does { RowDoes O.Objects.own (answer_with O.names n (word answer))
        itself m.old r.old result m.new r.new }
    ensures takes { Takes O.Objects.own 1 m.old m.new }
{
    pop_words(m, r, n + 1)?;
    push(m, r, answer)
}

/// The answer takes the place of receiver and n arguments, and the primitive has succeeded and leaves nothing to be done.
#[tactic(auto, using(crate::proofs::Doing::rows), unfolding(crate::specs::inside::Answering::succeed_with))]
pub fn succeed_with<O: Objects>(
    m: &mut O,
    r: &mut Registers,
    n: u32,
    answer: Word,
) -> Result<Tried, Dead>
    requires few { n < 256 }
    requires room { 1 ≤ O.room m.old }
    ensures does { RowTries O.Objects.own (succeed_with O.names n (word answer))
        m.old r.old result m.new r.new }
    ensures done { IfOk result (λ t. is_done t ≡ true) }
    ensures takes { Takes O.Objects.own 1 m.old m.new }
{
    answer_with(m, r, n, answer)?;
    Ok(Tried::Done)
}

/// The primitive has succeeded, and leaves this to be done.
#[inline(always)]
#[tactic(auto, unfolding(crate::specs::inside::Rows::row_state))]
fn leave(r: &mut Registers, deed: Deed) -> Tried
    ensures done { is_done result ≡ true }
    ensures deed { deed_of_trial r.new.left result ≡ deed }
    ensures same { (t : Table) (a : Head) → row_state t a r.new ≡ row_state t a r.old }
    ensures world { r.new.world.now ≡ r.old.world.now }
{
    match deed {
        Deed::Nothing => Tried::Done,
        deed => {
            r.left = deed;
            Tried::Leaves
        }
    }
}

/// The same where an effect leaves something to be done besides its answer, which copies no pixels.
#[tactic(auto, using(crate::proofs::Doing::rows, crate::proofs::Commuting::answered))]
pub fn succeed_leaving<O: Objects>(
    m: &mut O,
    r: &mut Registers,
    n: u32,
    answer: Answer,
) -> Result<Tried, Dead>
    requires few { n < 256 }
    requires room { 1 ≤ O.room m.old }
    requires plain { copies_pixels answer.deed ≡ false }
    ensures does { RowFollows O.Objects.own answer.deed (succeed_with O.names n (word answer.word))
        is_done (deed_of_trial r.new.left) m.old r.old result m.new r.new }
    ensures done { IfOk result (λ t. is_done t ≡ true) }
    ensures takes { Takes O.Objects.own 1 m.old m.new }
{
    answer_with(m, r, n, answer.word)?;
    Ok(leave(r, answer.deed))
}
