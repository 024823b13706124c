ghost use Rattle.std.specs.Prelude.{◌≡◌, ◌+◌, ◌<◌, ◌≤◌, IfOk};
ghost use Rattle.st_model.specs.Values.{word};
ghost use Rattle.st_model.specs.BitBlt.{fetch_axis};
ghost use Rattle.st_model.specs.inside.Calls.{Reads};
ghost use Rattle.st_bitblt.specs.inside.Reading.{IsDirection, axis_of};

use crate::numbers::fetch_integer;
use st_memory::Objects;
use st_model::{Dead, Word};

/// One of the two directions of a copy, across or down, whose lines are columns or rows: `count` lines from `to` on are
/// copied to, of those that lie within the `clip_count` lines from `clip` on, from the source's lines from `from` on. Each
/// number is a SmallInteger to which 16384 was added.
#[derive(Clone, Copy)]
pub struct Direction {
    pub to: u32,
    pub count: u32,
    pub from: u32,
    pub clip: u32,
    pub clip_count: u32,
}

/// The numbers of a direction of a BitBlt, where i is 0 across and 1 down.
#[tactic(auto, using(st_model::proofs::Runs::runs), unfolding(st_model::specs::BitBlt::fetch_axis))]
pub fn fetch_direction<O: Objects>(m: &O, bit_blt: Word, i: u32) -> Result<Direction, Dead>
    requires { i < 2 }
    ensures does { Reads (fetch_axis O.names (word bit_blt) i) axis_of (O.table m.now) result }
    ensures small { IfOk result IsDirection }
{
    let to = fetch_integer(m, bit_blt, 4 + i)?;
    let count = fetch_integer(m, bit_blt, 6 + i)?;
    let from = fetch_integer(m, bit_blt, 8 + i)?;
    let clip = fetch_integer(m, bit_blt, 10 + i)?;
    let clip_count = fetch_integer(m, bit_blt, 12 + i)?;
    Ok(Direction {
        to,
        count,
        from,
        clip,
        clip_count,
    })
}
