ghost use Rattle.std.specs.Prelude.{◌≡◌, ◌<◌, ◌≤◌, ◌+◌, length, IfOk, false};
ghost use Rattle.st_model.specs.declared.kind.Kind.TheVariants.{Bytes};
ghost use Rattle.st_model.specs.Values.{word};
ghost use Rattle.st_model.specs.Storage.{checked_replacing, replacing, replace_and_answer, primitive_replace};
ghost use Rattle.st_model.specs.Steps.{fetch_bytes};
ghost use Rattle.st_model.specs.Deeds.{bytes_from, copies_pixels};
ghost use Rattle.st_frames.specs.inside.Answering.{IsOfKind, answer_word, answer_deed};
ghost use Rattle.st_storage.specs.inside.Storing.{replacing_in, IsFewBytes};
ghost use Rattle.st_frames.specs.inside.Rows.{RowReads, RowLeaves, RowTries, Takes};

use crate::shapes::Replacing;
use st_frames::{
    Answer, Registers, Tried, check_bytes, find_bytes, positive_small, succeed_leaving, top, under,
};
use st_memory::Objects;
use st_model::{Dead, Deed, Word};

/// Bytes that are in both objects.
#[tactic(auto, using(st_frames::proofs::Doing::checks), unfolding(st_model::specs::Storage::checked_replacing))]
fn checked_replacing<O: Objects>(
    m: &O,
    r: &Registers,
    target: Word,
    source: Word,
    p: Replacing,
) -> Result<Replacing, Dead>
    requires first { p.first < 16384 }
    requires last { p.last < 16384 }
    requires from { p.from < 16384 }
    ensures does { RowReads O.Objects.own
        (checked_replacing O.names (word target) (word source) (replacing_in p))
        replacing_in m.now r.now result }
    ensures few { IfOk result IsFewBytes }
{
    if p.first < 1 {
        return Err(Dead::Field);
    }
    if p.from < 1 {
        return Err(Dead::Field);
    }
    if p.last + 1 < p.first {
        return Err(Dead::Field);
    }
    if m.fetch_size(target)? < p.last {
        return Err(Dead::Field);
    }
    if m.fetch_size(source)? + p.first < p.from + p.last {
        return Err(Dead::Field);
    }
    Ok(p)
}

/// Whether n bytes of an object of kind Bytes, one at least, can be fetched from a place on.
fn find_source<O: Objects>(m: &O, r: &Registers, v: Word, i: u32, n: u32) -> Result<(), Dead>
    requires bytes { IsOfKind O.Objects.own m.now v Bytes }
    requires some { 1 ≤ n }
    requires low { i ≤ 131066 }
    requires few { n ≤ 131066 }
    ensures does { RowReads O.Objects.own (fetch_bytes O.names (word v) i n)
        (λ u. bytes_from (O.table m.now) (word v) i n) m.now r.now result }
    ensures all { IfOk result (λ u. length (bytes_from (O.table m.now) (word v) i n) ≡ n) }
{
    m.fetch_byte(v, i)?;
    let size = m.fetch_size(v)?;
    if size < i + n {
        Err(Dead::Field)
    } else {
        Ok(())
    }
}

/// Bytes of an object of kind Bytes, to become those of another.
#[tactic(auto, using(st_frames::proofs::Doing::rows), unfolding(st_model::specs::Storage::replacing))]
fn replacing<O: Objects>(
    m: &O,
    r: &Registers,
    target: Word,
    first: Word,
    last: Word,
    source: Word,
    from: Word,
) -> Result<Replacing, Dead>
    ensures does { RowReads O.Objects.own
        (replacing O.names (word target) (word first) (word last) (word source) (word from))
        replacing_in m.now r.now result }
    ensures target { IfOk result (λ p. IsOfKind O.Objects.own m.now target Bytes) }
    ensures source { IfOk result (λ p. IsOfKind O.Objects.own m.now source Bytes) }
    ensures few { IfOk result IsFewBytes }
{
    check_bytes(m, r, target)?;
    check_bytes(m, r, source)?;
    let first = positive_small(m, r, first)?;
    let last = positive_small(m, r, last)?;
    let from = positive_small(m, r, from)?;
    checked_replacing(m, r, target, source, Replacing { first, last, from })
}

/// Bytes that become those of another object are left to be stored, as they were before.
fn replace_and_answer<O: Objects>(
    m: &O,
    r: &Registers,
    target: Word,
    source: Word,
    p: Replacing,
) -> Result<Answer, Dead>
    requires target { IsOfKind O.Objects.own m.now target Bytes }
    requires source { IsOfKind O.Objects.own m.now source Bytes }
    requires few { IsFewBytes p }
    ensures does { RowLeaves O.Objects.own
        (replace_and_answer O.names (word target) (word source) (replacing_in p))
        answer_word answer_deed m.now r.now result m.now r.now }
    ensures plain { IfOk result (λ a. copies_pixels a.deed ≡ false) }
{
    let count = p.last + 1 - p.first;
    if count == 0 {
        return Ok(Answer {
            word: target,
            deed: Deed::Nothing,
        });
    }
    find_source(m, r, source, p.from - 1, count)?;
    find_bytes(m, r, target, p.first - 1, count)?;
    Ok(Answer {
        word: target,
        deed: Deed::ReplaceBytes {
            target,
            source,
            to: p.first - 1,
            from: p.from - 1,
            count,
        },
    })
}

/// Primitive 105: bytes of the receiver, from the first argument to the second, become those of the third from the fourth on.
#[tactic(auto, using(st_frames::proofs::Tries::effects), unfolding(st_model::specs::Storage::primitive_replace))]
pub fn primitive_replace<O: Objects>(m: &mut O, r: &mut Registers) -> Result<Tried, Dead>
    requires room { 1 ≤ O.room m.old }
    ensures does { RowTries O.Objects.own (primitive_replace O.names) m.old r.old result m.new r.new }
    ensures takes { Takes O.Objects.own 1 m.old m.new }
{
    let receiver = under(m, r, 4)?;
    let first = under(m, r, 3)?;
    let last = under(m, r, 2)?;
    let source = under(m, r, 1)?;
    let from = top(m, r)?;
    match replacing(m, r, receiver, first, last, source, from) {
        Ok(p) => {
            let answer = replace_and_answer(m, r, receiver, source, p)?;
            succeed_leaving(m, r, 4, answer)
        }
        Err(_) => Ok(Tried::Failed),
    }
}
