ghost use Rattle.std.specs.Prelude.{◌≡◌, ◌≤◌, ◌+◌};
ghost use Rattle.st_model.specs.Storage.{primitive_core_left, primitive_oops_left};
ghost use Rattle.st_frames.specs.inside.Rows.{RowTries, Takes};

use crate::large::answer_number;
use st_frames::{Registers, Tried};
use st_memory::Objects;
use st_model::Dead;

/// Primitive 112: how many words are free before the number is made.
#[tactic(auto, using(st_frames::proofs::Doing::rows))]
pub fn primitive_core_left<O: Objects>(m: &mut O, r: &mut Registers) -> Result<Tried, Dead>
    requires room { 2 ≤ O.room m.old }
    ensures does { RowTries O.Objects.own (primitive_core_left O.names) m.old r.old result m.new r.new }
    ensures takes { Takes O.Objects.own 2 m.old m.new }
{
    let free = m.free();
    answer_number(m, r, free.words)
}

/// Primitive 115: how many entries are free before the number is made.
#[tactic(auto, using(st_frames::proofs::Doing::rows))]
pub fn primitive_oops_left<O: Objects>(m: &mut O, r: &mut Registers) -> Result<Tried, Dead>
    requires room { 2 ≤ O.room m.old }
    ensures does { RowTries O.Objects.own (primitive_oops_left O.names) m.old r.old result m.new r.new }
    ensures takes { Takes O.Objects.own 2 m.old m.new }
{
    let free = m.free();
    answer_number(m, r, free.entries)
}
