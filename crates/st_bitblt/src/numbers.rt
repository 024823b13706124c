ghost use Rattle.std.specs.Prelude.{◌≡◌, ◌<◌, ◌^◌, IfOk};
ghost use Rattle.st_model.specs.{Values.word, Steps.fetch_integer, Primitives.positive_small};
ghost use Rattle.st_model.specs.{BitBlt.fetch_positive, inside.Calls.{Reads, itself}};
ghost use Rattle.st_bitblt.specs.inside.Reading.{HasWordsIn, checked_words, lowered, units_in};

use st_memory::Objects;
use st_model::{Dead, Word};

/// The number in a field that holds a SmallInteger of at least 0.
#[tactic(auto, using(st_model::proofs::Runs::runs, st_model::proofs::Runs::tests, st_model::proofs::SmallBits::bits), unfolding(st_model::specs::BitBlt::fetch_positive, st_model::specs::Primitives::positive_small))]
pub fn fetch_positive<O: Objects>(m: &O, o: Word, i: u32) -> Result<u32, Dead>
    ensures does { Reads (fetch_positive O.names (word o) i) itself (O.table m.now) result }
    ensures small { IfOk result (λ n. n < 16384) }
{
    let x = m.fetch_field(o, i)?;
    if !x.is_small() {
        return Err(Dead::NotSmall);
    }
    let n = x.0 / 2;
    if n < 16384 { Ok(n) } else { Err(Dead::Field) }
}

/// The integer in a field that holds a SmallInteger, plus 16384.
#[tactic(auto, using(st_model::proofs::Runs::runs), unfolding(st_model::specs::Steps::fetch_integer))]
pub fn fetch_integer<O: Objects>(m: &O, o: Word, i: u32) -> Result<u32, Dead>
    ensures does { Reads (fetch_integer O.names (word o) i) lowered (O.table m.now) result }
    ensures small { IfOk result (λ n. n < 32768) }
{
    let x = m.fetch_field(o, i)?;
    if x.is_small() {
        Ok((x.integer() + 16384) as u32)
    } else {
        Err(Dead::NotSmall)
    }
}

/// An object of kind Words that has n words or more.
pub fn check_words<O: Objects>(m: &O, o: Word, n: u32) -> Result<(), Dead>
    ensures does { Reads (checked_words O.names (word o) n) (λ u. units_in (O.table m.now) (word o))
        (O.table m.now) result }
    ensures words { IfOk result (λ u. HasWordsIn (O.table m.now) (word o) n) }
{
    let kind = m.fetch_kind(o)?;
    if !kind.is_words() {
        return Err(Dead::Kind);
    }
    if n > 0 {
        m.fetch_word(o, n - 1)?;
    }
    Ok(())
}
