ghost use Rattle.std.specs.Prelude.{◌≡◌, ◌<◌, ◌≤◌, ◌+◌, ◌-◌, ◌≤ℤ◌, pos, negsuc, IfOk};
ghost use Rattle.st_model.specs.Values.{word};
ghost use Rattle.st_model.specs.inside.Calls.{itself};
ghost use Rattle.st_model.specs.Storage.{count_literals, first_place, place_of_element, place_at, place_behind_fixed, count_elements};
ghost use Rattle.st_frames.specs.inside.Rows.{RowReads};

use crate::numbers::fixed_fields;
use crate::shapes::Indexed;
use st_frames::{Registers, bits_or_die, positive_small};
use st_memory::Objects;
use st_model::{Dead, Word};

/// How many literals a method has, as its header counts them.
#[tactic(auto, using(st_frames::proofs::Doing::rows, st_frames::proofs::Tries::counts), unfolding(st_model::specs::Storage::count_literals))]
pub fn count_literals<O: Objects>(m: &O, r: &Registers, v: Word) -> Result<u32, Dead>
    ensures does { RowReads O.Objects.own (count_literals O.names (word v)) itself m.now r.now result }
    ensures few { IfOk result (λ n. n < 64) }
{
    let header = m.method_header(v)?;
    let bits = bits_or_die(m, r, header)?;
    Ok(bits % 64)
}

/// The first place that has an element.
#[tactic(auto, using(st_frames::proofs::Doing::rows), unfolding(st_model::specs::Storage::first_place, st_model::specs::Storage::first_by))]
fn first_place<O: Objects>(m: &O, r: &Registers, v: Word) -> Result<u32, Dead>
    ensures does { RowReads O.Objects.own (first_place O.names (word v)) itself m.now r.now result }
{
    if m.fetch_kind(v)?.is_method() {
        let n = count_literals(m, r, v)?;
        Ok(2 * n + 2)
    } else {
        Ok(0)
    }
}

/// The place of element number i behind so many fixed fields.
#[tactic(auto, using(st_frames::proofs::Doing::checks), unfolding(st_model::specs::Storage::place_of_element))]
pub fn place_of_element<O: Objects>(
    m: &O,
    r: &Registers,
    v: Word,
    fixed: u32,
    i: u32,
) -> Result<u32, Dead>
    requires fixed { fixed < 2048 }
    requires number { i ≤ 16384 }
    ensures does { RowReads O.Objects.own (place_of_element O.names (word v) fixed i)
        itself m.now r.now result }
{
    let n = m.fetch_size(v)?;
    if i < 1 {
        return Err(Dead::Field);
    }
    if n < fixed + i {
        return Err(Dead::Field);
    }
    let first = first_place(m, r, v)?;
    let place = fixed + i - 1;
    if place < first {
        return Err(Dead::Field);
    }
    Ok(place)
}

/// The place that an index names.
#[tactic(auto, using(st_frames::proofs::Doing::rows), unfolding(st_model::specs::Storage::place_at))]
pub fn place_at<O: Objects>(m: &O, r: &Registers, x: Indexed, fixed: u32) -> Result<u32, Dead>
    requires fixed { fixed < 2048 }
    ensures does { RowReads O.Objects.own (place_at O.names (word x.object) fixed (word x.index))
        itself m.now r.now result }
{
    let i = positive_small(m, r, x.index)?;
    place_of_element(m, r, x.object, fixed, i)
}

/// The place that an index names behind the fixed fields.
#[tactic(auto, using(st_frames::proofs::Doing::rows), unfolding(st_model::specs::Storage::place_behind_fixed))]
pub fn place_behind_fixed<O: Objects>(m: &O, r: &Registers, x: Indexed) -> Result<u32, Dead>
    ensures does { RowReads O.Objects.own (place_behind_fixed O.names (word x.object) (word x.index))
        itself m.now r.now result }
{
    let fixed = fixed_fields(m, r, x.object)?;
    place_at(m, r, x, fixed)
}

/// How many elements an object has; below 0 where it has fewer fields than its class says.
#[tactic(auto, using(st_frames::proofs::Doing::rows, crate::proofs::Valued::differences), unfolding(st_model::specs::Storage::count_elements))]
pub fn count_elements<O: Objects>(m: &O, r: &Registers, v: Word) -> Result<i32, Dead>
    ensures does { RowReads O.Objects.own (count_elements O.names (word v)) itself m.now r.now result }
    ensures low { IfOk result (λ n. negsuc 2047 ≤ℤ n) }
    ensures high { IfOk result (λ n. n ≤ℤ pos 131066) }
{
    let fixed = fixed_fields(m, r, v)?;
    let n = m.fetch_size(v)?;
    Ok(n as i32 - fixed as i32)
}
