ghost use Rattle.std.specs.Prelude.{◌≡◌, ℕ, length, replicate, None, IfOk, slice_index_or, false};
ghost use Rattle.st_model.specs.Settled.{is_marked};
ghost use Rattle.st_plain.specs.inside.Lists.{slot};
ghost use Rattle.st_counted.specs.inside.Words.{nil_word};

use crate::entry::Entry;
use st_model::Oop;
use std::alloc::{AllocError, Global};

/// Places of a table, all empty.
pub fn empty_places(alloc: Global, len: usize) -> Result<Vec<Option<Entry>>, AllocError>
    ensures len { IfOk result (λ v. length v.items ≡ len) }
    ensures empty { IfOk result (λ v. (k : ℕ) → slot v.items k ≡ None) }
{
    vec![in alloc; None; len]
}

/// Units that are all 0.
pub fn zero_units(alloc: Global, len: usize) -> Result<Vec<u16>, AllocError>
    ensures len { IfOk result (λ v. length v.items ≡ len) }
    ensures zero { IfOk result (λ v. v.items ≡ replicate len 0) }
{
    vec![in alloc; 0; len]
}

/// Words that are all nil.
pub fn nil_words(alloc: Global, len: usize) -> Result<Vec<Oop>, AllocError>
    ensures len { IfOk result (λ v. length v.items ≡ len) }
    ensures nil { IfOk result (λ v. (k : ℕ) → slice_index_or v.items k nil_word ≡ nil_word) }
{
    vec![in alloc; Oop::NIL; len]
}

/// Marks that are all false.
pub fn no_marks(alloc: Global, len: usize) -> Result<Vec<bool>, AllocError>
    ensures len { IfOk result (λ v. length v.items ≡ len) }
    ensures none { IfOk result (λ v. (n : ℕ) → is_marked v.items n ≡ false) }
{
    vec![in alloc; false; len]
}
