//! The fields and the bytes of objects.

ghost use Rattle.std.specs.Prelude.{◌≡◌, true, false, drop, IfOk};
ghost use Rattle.st_model.specs.{Values.value, Objects.{is_words, is_pointers}, View.{is_live, object_of}};
ghost use Rattle.st_scope.specs.inside.Meanings.{values_of};

use st_memory::{Memory, count_fields, count_units};
use st_model::Oop;
use st_scan::Text;
use std::alloc::{AllocError, Global};

/// The fields of an object; of a method its header and literals.
pub(crate) fn fields_of<M: Memory>(alloc: Global, m: &M, o: Oop) -> Result<Vec<Oop>, AllocError>
    requires { is_live (M.view m.now).objects (value o) ≡ true }
    ensures { IfOk result (λ os. values_of os ≡ (object_of (M.view m.now).objects (value o)).fields) }
{
    let mut fields = Vec::new(alloc);
    for i in 0..count_fields(m, o) {
        fields.push(m.pointer(o, i))?;
    }
    Ok(fields)
}

/// The literals of a method, behind its header.
pub(crate) fn behind_header(words: &[Oop]) -> &[Oop]
    ensures { result.now ≡ drop 1 words.now }
{
    if 1 <= words.len() { &words[1..] } else { &[] }
}

/// The bytes of an object of kind Bytes or Method, of a method those of its bytecodes.
#[tactic(auto, using(st_memory::proofs::Bodies::bodies))]
pub(crate) fn bytes_of<M: Memory>(alloc: Global, m: &M, o: Oop) -> Result<Text, AllocError>
    requires live { is_live (M.view m.now).objects (value o) ≡ true }
    requires words { is_words (object_of (M.view m.now).objects (value o)).kind ≡ false }
    requires pointers { is_pointers (object_of (M.view m.now).objects (value o)).kind ≡ false }
    ensures { IfOk result (λ bs. bs.items ≡ (object_of (M.view m.now).objects (value o)).units) }
{
    let fields = count_fields(m, o);
    let mut bytes = Vec::new(alloc);
    for i in 0..count_units(m, o, fields) {
        bytes.push(m.byte(o, 2 * fields + i))?;
    }
    Ok(bytes)
}
