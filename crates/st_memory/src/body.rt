ghost use Rattle.std.specs.Prelude.{◌≡◌, ◌+◌, ◌*◌, ◌≤◌, length, slice_get, Some, true, false};
ghost use Rattle.st_model.specs.Values.{value};
ghost use Rattle.st_model.specs.Objects.{is_pointers, first_unit};
ghost use Rattle.st_model.specs.View.{is_live, object_of};

use crate::memory::Memory;
use st_model::{Kind, Oop, literals};

/// How many fields an object has; of a Method header and literals.
#[tactic(auto, using(crate::proofs::Bodies::bodies))]
pub fn count_fields<M: Memory>(m: &M, o: Oop) -> u32
    requires { is_live (M.view m.now).objects (value o) ≡ true }
    ensures { result ≡ length (object_of (M.view m.now).objects (value o)).fields }
{
    match m.kind(o) {
        Kind::Pointers => m.size(o),
        Kind::Words | Kind::Bytes => 0,
        Kind::Method => literals(m.pointer(o, 0)) + 1,
    }
}

/// How many words or bytes an object has besides its fields.
#[tactic(auto, using(crate::proofs::Bodies::bodies))]
pub fn count_units<M: Memory>(m: &M, o: Oop, fields: u32) -> u32
    requires live { is_live (M.view m.now).objects (value o) ≡ true }
    requires fields { fields ≡ length (object_of (M.view m.now).objects (value o)).fields }
    ensures { result ≡ length (object_of (M.view m.now).objects (value o)).units }
{
    match m.kind(o) {
        Kind::Pointers => 0,
        Kind::Words | Kind::Bytes | Kind::Method => m.size(o) - 2 * fields,
    }
}

/// Word or byte i of an object, counted from behind its fields.
#[tactic(auto, using(crate::proofs::Bodies::bodies))]
pub fn unit_at<M: Memory>(m: &M, o: Oop, fields: u32, i: u32) -> u32
    requires live { is_live (M.view m.now).objects (value o) ≡ true }
    requires fields { fields ≡ length (object_of (M.view m.now).objects (value o)).fields }
    requires kind { is_pointers (object_of (M.view m.now).objects (value o)).kind ≡ false }
    requires range { i + 1 ≤ length (object_of (M.view m.now).objects (value o)).units }
    ensures { slice_get (object_of (M.view m.now).objects (value o)).units i ≡ Some result }
{
    if m.kind(o).is_words() {
        u32::from(m.word(o, i))
    } else {
        u32::from(m.byte(o, 2 * fields + i))
    }
}

/// The place of an object's first word or byte; a Method's header and literals count as bytes.
#[tactic(auto, using(crate::proofs::Bodies::bodies))]
pub fn first_unit<M: Memory>(m: &M, o: Oop) -> u32
    requires live { is_live (M.view m.now).objects (value o) ≡ true }
    requires kind { is_pointers (object_of (M.view m.now).objects (value o)).kind ≡ false }
    ensures { result ≡ first_unit (object_of (M.view m.now).objects (value o)) }
{
    match m.kind(o) {
        Kind::Pointers | Kind::Words | Kind::Bytes => 0,
        Kind::Method => 2 * literals(m.pointer(o, 0)) + 2,
    }
}
