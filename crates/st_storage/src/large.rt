ghost use Rattle.std.specs.Prelude.{◌≡◌, ◌<◌, ◌≤◌, ◌+◌, ◌≤ℤ◌, pos, negsuc, false, IfOk};
ghost use Rattle.st_model.specs.Primitives.{number, number_of};
ghost use Rattle.st_model.specs.Deeds.{copies_pixels};
ghost use Rattle.st_frames.specs.inside.Answering.{succeed_by, answer_word, answer_deed};
ghost use Rattle.st_frames.specs.inside.Rows.{RowLeaves, RowTries, Takes};

use st_frames::{Answer, Registers, Tried, number, small_integer, succeed_leaving};
use st_memory::Objects;
use st_model::{Dead, Deed};

/// The SmallInteger of an integer, or a new LargePositiveInteger.
#[tactic(auto, using(st_frames::proofs::Doing::rows, crate::proofs::Valued::integers))]
fn number_of<O: Objects>(m: &mut O, r: &Registers, n: i32) -> Result<Answer, Dead>
    requires low { negsuc 2047 ≤ℤ n }
    requires high { n ≤ℤ pos 131066 }
    requires room { 1 ≤ O.room m.old }
    ensures does { RowLeaves O.Objects.own (number_of O.names n)
        answer_word answer_deed m.old r.now result m.new r.now }
    ensures takes { Takes O.Objects.own 1 m.old m.new }
    ensures plain { IfOk result (λ a. copies_pixels a.deed ≡ false) }
{
    if n < 0 {
        Ok(Answer {
            word: small_integer(n),
            deed: Deed::Nothing,
        })
    } else {
        number(m, r, u128::from(n as u32))
    }
}

/// Answers a number to a primitive without arguments.
#[tactic(auto, using(st_frames::proofs::Doing::rows), unfolding(st_frames::specs::inside::Answering::succeed_by))]
pub fn answer_number<O: Objects>(m: &mut O, r: &mut Registers, n: u32) -> Result<Tried, Dead>
    requires room { 2 ≤ O.room m.old }
    ensures does { RowTries O.Objects.own (succeed_by O.names 0 (number O.names n))
        m.old r.old result m.new r.new }
    ensures takes { Takes O.Objects.own 2 m.old m.new }
{
    let answer = number(m, r, u128::from(n))?;
    succeed_leaving(m, r, 0, answer)
}

/// Answers an integer to a primitive without arguments.
#[tactic(auto, using(st_frames::proofs::Doing::rows), unfolding(st_frames::specs::inside::Answering::succeed_by))]
pub fn answer_integer<O: Objects>(m: &mut O, r: &mut Registers, n: i32) -> Result<Tried, Dead>
    requires low { negsuc 2047 ≤ℤ n }
    requires high { n ≤ℤ pos 131066 }
    requires room { 2 ≤ O.room m.old }
    ensures does { RowTries O.Objects.own (succeed_by O.names 0 (number_of O.names n))
        m.old r.old result m.new r.new }
    ensures takes { Takes O.Objects.own 2 m.old m.new }
{
    let answer = number_of(m, r, n)?;
    succeed_leaving(m, r, 0, answer)
}
