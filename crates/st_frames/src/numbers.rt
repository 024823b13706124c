ghost use Rattle.std.specs.Prelude.{◌≡◌, ◌<◌, ◌≤◌, ◌+◌, ◌^◌, IfOk};
ghost use Rattle.st_model.specs.{declared.kind.Kind.TheVariants.Bytes, Values.word, inside.Calls.itself};
ghost use Rattle.st_model.specs.Primitives.{check_class, check_bytes, bits_or_die, positive_small, large_value, positive_value};
ghost use Rattle.st_frames.specs.{inside.Answering.{IsOfKind, number_read}, inside.Rows.RowReads};

use crate::fetching::page;
use crate::registers::Registers;
use st_memory::Objects;
use st_model::{Dead, Kind, PageObject, Word};

/// An instance of this class of the page.
#[tactic(auto, using(crate::proofs::Doing::rows, crate::proofs::Tries::tests), unfolding(st_model::specs::Primitives::check_class))]
pub fn check_class<O: Objects>(m: &O, r: &Registers, v: Word, class: PageObject) -> Result<(), Dead>
    ensures does { RowReads O.Objects.own (check_class O.names (word v) class) itself m.now r.now result }
{
    let found = m.fetch_class(v)?;
    let wanted = page(m, class);
    if found.same(wanted) {
        Ok(())
    } else {
        Err(Dead::Kind)
    }
}

/// An object of kind Bytes.
#[tactic(auto, using(crate::proofs::Doing::rows, crate::proofs::Tries::tests), unfolding(st_model::specs::Primitives::check_bytes))]
pub fn check_bytes<O: Objects>(m: &O, r: &Registers, v: Word) -> Result<(), Dead>
    ensures does { RowReads O.Objects.own (check_bytes O.names (word v)) itself m.now r.now result }
    ensures bytes { IfOk result (λ u. IsOfKind O.Objects.own m.now v Bytes) }
{
    match m.fetch_kind(v)? {
        Kind::Bytes => Ok(()),
        _ => Err(Dead::Kind),
    }
}

/// The bits of a SmallInteger.
#[tactic(auto, using(st_model::proofs::SmallBits::bits))]
pub fn bits_or_die<O: Objects>(m: &O, r: &Registers, v: Word) -> Result<u32, Dead>
    ensures does { RowReads O.Objects.own (bits_or_die (word v)) itself m.now r.now result }
    ensures small { IfOk result (λ n. n < 2 ^ 31) }
{
    if v.is_small() {
        Ok(v.0 / 2)
    } else {
        Err(Dead::NotSmall)
    }
}

/// The value of a SmallInteger of at least 0.
#[tactic(auto, using(crate::proofs::Doing::checks), unfolding(st_model::specs::Primitives::positive_small))]
pub fn positive_small<O: Objects>(m: &O, r: &Registers, v: Word) -> Result<u32, Dead>
    ensures does { RowReads O.Objects.own (positive_small (word v)) itself m.now r.now result }
    ensures small { IfOk result (λ n. n < 16384) }
{
    let n = bits_or_die(m, r, v)?;
    if n < 16384 { Ok(n) } else { Err(Dead::Field) }
}

/// The number that n bytes say from one on, the low one first.
#[tactic(auto, using(crate::proofs::Valued::reads))]
pub fn number_read<O: Objects>(
    m: &O,
    r: &Registers,
    v: Word,
    from: u32,
    n: u32,
) -> Result<u128, Dead>
    requires few { from + n ≤ 16 }
    ensures does { RowReads O.Objects.own (number_read O.names (word v) from n)
        itself m.now r.now result }
    ensures small { IfOk result (λ k. k < 256 ^ n) }
    ensures below { IfOk result (λ k. k < 2 ^ 128) }
{
    if n == 0 {
        return Ok(0);
    }
    let low = m.fetch_byte(v, from)?;
    let high = number_read(m, r, v, from + 1, n - 1)?;
    Ok(u128::from(low) + 256 * high)
}

/// The value of a LargePositiveInteger of 1 byte and so many at most.
#[tactic(auto, using(crate::proofs::Doing::checks, crate::proofs::Valued::sizes), unfolding(st_model::specs::Primitives::large_value, crate::specs::inside::Answering::number_read))]
fn large_value<O: Objects>(m: &O, r: &Registers, most: u32, v: Word) -> Result<u128, Dead>
    requires few { most ≤ 16 }
    ensures does { RowReads O.Objects.own (large_value O.names most (word v)) itself m.now r.now result }
    ensures small { IfOk result (λ k. k < 256 ^ most) }
{
    check_class(m, r, v, PageObject::LargeClass)?;
    check_bytes(m, r, v)?;
    let n = m.fetch_size(v)?;
    if n < 1 {
        return Err(Dead::Field);
    }
    if most < n {
        return Err(Dead::Field);
    }
    let k = number_read(m, r, v, 0, n)?;
    Ok(k)
}

/// The value of a SmallInteger of at least 0, or of a LargePositiveInteger of so many bytes at most.
#[tactic(auto, using(crate::proofs::Valued::values))]
pub fn value_within<O: Objects>(m: &O, r: &Registers, most: u32, v: Word) -> Result<u128, Dead>
    requires some { 2 ≤ most }
    requires few { most ≤ 16 }
    ensures does { RowReads O.Objects.own (positive_value O.names most (word v)) itself m.now r.now result }
    ensures small { IfOk result (λ k. k < 256 ^ most) }
{
    if v.is_small() {
        let n = positive_small(m, r, v)?;
        Ok(u128::from(n))
    } else {
        large_value(m, r, most, v)
    }
}

/// The value of a SmallInteger of at least 0, or of a LargePositiveInteger of 4 bytes at most.
pub fn positive_value<O: Objects>(m: &O, r: &Registers, v: Word) -> Result<u64, Dead>
    ensures does { RowReads O.Objects.own (positive_value O.names 4 (word v)) itself m.now r.now result }
    ensures small { IfOk result (λ k. k < 2 ^ 32) }
{
    let k = value_within(m, r, 4, v)?;
    Ok(k as u64)
}
