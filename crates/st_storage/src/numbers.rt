ghost use Rattle.std.specs.Prelude.{◌≡◌, ◌<◌, ◌^◌, IfOk};
ghost use Rattle.st_model.specs.Values.{Small, word};
ghost use Rattle.st_model.specs.inside.Calls.{itself};
ghost use Rattle.st_model.specs.Primitives.{byte_or_die, has_pointers, has_words, is_indexable, fixed_count, specification, fixed_fields};
ghost use Rattle.st_frames.specs.inside.Rows.{RowReads};

use st_frames::{Registers, bits_or_die};
use st_memory::Objects;
use st_model::{Dead, Word};

/// The byte that a SmallInteger from 0 to 255 says.
#[tactic(auto, using(st_frames::proofs::Doing::checks), unfolding(st_model::specs::Primitives::byte_or_die))]
pub fn byte_or_die<O: Objects>(m: &O, r: &Registers, v: Word) -> Result<u8, Dead>
    ensures does { RowReads O.Objects.own (byte_or_die (word v)) itself m.now r.now result }
{
    let n = bits_or_die(m, r, v)?;
    if n < 256 {
        Ok(n as u8)
    } else {
        Err(Dead::Field)
    }
}

/// Whether the instances of a specification have pointers.
pub fn has_pointers(specification: u32) -> bool
    ensures { result ≡ has_pointers specification }
{
    specification / 16384 % 2 == 1
}

/// Whether they have words, where they have no pointers.
pub fn has_words(specification: u32) -> bool
    ensures { result ≡ has_words specification }
{
    specification / 8192 % 2 == 1
}

/// Whether they are indexable.
pub fn is_indexable(specification: u32) -> bool
    ensures { result ≡ is_indexable specification }
{
    specification / 4096 % 2 == 1
}

/// How many fixed fields they have.
pub fn fixed_count(specification: u32) -> u32
    ensures count { result ≡ fixed_count specification }
    ensures few { result < 2048 }
{
    specification % 2048
}

/// The instance specification of a class.
#[tactic(auto, using(st_frames::proofs::Doing::rows), unfolding(st_model::specs::Primitives::specification))]
pub fn specification<O: Objects>(m: &O, r: &Registers, class: Word) -> Result<u32, Dead>
    ensures does { RowReads O.Objects.own (specification O.names (word class)) itself m.now r.now result }
{
    let x = m.fetch_field(class, 2)?;
    bits_or_die(m, r, x)
}

/// How many fixed fields an object has: of kind Pointers those that its class gives it.
#[tactic(auto, using(st_frames::proofs::Doing::rows), unfolding(st_model::specs::Primitives::fixed_fields, st_model::specs::Primitives::fixed_by, st_model::specs::Primitives::fixed_of_class))]
pub fn fixed_fields<O: Objects>(m: &O, r: &Registers, v: Word) -> Result<u32, Dead>
    ensures does { RowReads O.Objects.own (fixed_fields O.names (word v)) itself m.now r.now result }
    ensures few { IfOk result (λ n. n < 2048) }
{
    if m.fetch_kind(v)?.is_pointers() {
        let class = m.fetch_class(v)?;
        let s = specification(m, r, class)?;
        Ok(fixed_count(s))
    } else {
        Ok(0)
    }
}

/// The word of a SmallInteger with these bits.
#[tactic(auto, unfolding(st_model::specs::Values::value_of))]
pub fn small_word(bits: u32) -> Word
    requires { bits < 2 ^ 31 }
    ensures { word result ≡ Small bits }
{
    Word(2 * bits + 1)
}
