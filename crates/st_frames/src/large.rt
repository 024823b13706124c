ghost use Rattle.st_model.specs.{Deeds.copies_pixels, declared.deed.Deed.TheVariants.StoreNumber};
ghost use Rattle.st_model.specs.Primitives.{bytes_of_number, new_large, number};
ghost use Rattle.std.specs.Prelude.{◌≡◌, ◌≤◌, ◌+◌, length, IfOk, false};
ghost use Rattle.st_frames.specs.{inside.Answering.{StoresBytes, answer_word, answer_deed}, inside.Rows.{RowLeaves, Takes}};

use crate::answer::Answer;
use crate::fetching::page;
use crate::registers::Registers;
use crate::words::small;
use st_memory::Objects;
use st_model::{Dead, Deed, Kind, PageObject, Word};

/// How many bytes a number has, one at least.
#[tactic(auto, using(crate::proofs::Counted::counts))]
fn count_bytes(n: u128) -> u32
    ensures count { result ≡ length (bytes_of_number n) }
    ensures some { 1 ≤ result }
    ensures few { result ≤ 16 }
{
    let mut left = n;
    for count in 1..16 {
        if left < 256 {
            return count;
        }
        left /= 256;
    }
    16
}

/// Whether n bytes of an object, one at least, can be stored from a place on.
#[tactic(auto, using(crate::proofs::BytesLeft::bytes))]
pub fn find_bytes<O: Objects>(m: &O, r: &Registers, v: Word, i: u32, n: u32) -> Result<(), Dead>
    requires some { 1 ≤ n }
    requires low { i ≤ 131066 }
    requires few { n ≤ 131066 }
    ensures { StoresBytes O.Objects.own m.now r.now v i n result }
{
    m.fetch_byte(v, i)?;
    let size = m.fetch_size(v)?;
    if size < i + n {
        Err(Dead::Field)
    } else {
        Ok(())
    }
}

/// A new LargePositiveInteger, whose bytes are left to be stored. Where there is no room for it, nil has no such bytes.
#[tactic(auto, using(crate::proofs::Doing::rows), unfolding(st_model::specs::Primitives::new_large))]
fn new_large<O: Objects>(m: &mut O, r: &Registers, n: u128) -> Result<Answer, Dead>
    requires room { 1 ≤ O.room m.old }
    ensures does { RowLeaves O.Objects.own (new_large O.names (bytes_of_number n))
        answer_word answer_deed m.old r.now result m.new r.now }
    ensures deed { IfOk result (λ a. a.deed ≡ StoreNumber a.word n) }
    ensures takes { Takes O.Objects.own 1 m.old m.new }
    ensures plain { IfOk result (λ a. copies_pixels a.deed ≡ false) }
{
    let class = page(m, PageObject::LargeClass);
    let count = count_bytes(n);
    let word = m.make(class, Kind::Bytes, count, 0)?;
    find_bytes(m, r, word, 0, count)?;
    let deed = Deed::StoreNumber {
        object: word,
        number: n,
    };
    Ok(Answer { word, deed })
}

/// The SmallInteger of a number, or a new LargePositiveInteger, whose bytes are left to be stored.
#[tactic(auto, using(crate::proofs::Doing::rows), unfolding(st_model::specs::Primitives::number))]
pub fn number<O: Objects>(m: &mut O, r: &Registers, n: u128) -> Result<Answer, Dead>
    requires room { 1 ≤ O.room m.old }
    ensures does { RowLeaves O.Objects.own (number O.names n)
        answer_word answer_deed m.old r.now result m.new r.now }
    ensures deed { IfOk result (λ a. a.deed ≡ StoreNumber a.word n) }
    ensures takes { Takes O.Objects.own 1 m.old m.new }
    ensures plain { IfOk result (λ a. copies_pixels a.deed ≡ false) }
{
    if n < 16384 {
        let word = small(n as u32);
        Ok(Answer {
            word,
            deed: Deed::StoreNumber {
                object: word,
                number: n,
            },
        })
    } else {
        new_large(m, r, n)
    }
}
