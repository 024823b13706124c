//! The association of a method's class.

ghost use Rattle.std.specs.Prelude.{◌≡◌};
ghost use Rattle.st_model.specs.{Values.value, Steps.same_value, Table.table, inside.Calls.{Reads, itself}};
ghost use Rattle.st_parts.specs.Owners.{is_of_metaclass, owns_by, owns, is_owner_among};

use st_memory::Memory;
use st_model::{Dead, Oop, Word};
use st_scope::{class_association, class_of, fetch_field};

/// A compiled method: that of a selector in the class of a name, or, on the class side, in its metaclass.
#[derive(Clone, Copy)]
pub struct Compiled<'a> {
    /// The class, or the metaclass.
    pub class: Oop,
    /// The name of the class.
    pub name: &'a [u8],
    /// Whether it is on the class side.
    pub meta: bool,
    /// The selector.
    pub selector: &'a [u8],
    /// The object of kind Method.
    pub method: Oop,
}

/// Whether two pointers are of the same SmallInteger or the same object.
pub(crate) fn same(a: Oop, b: Oop) -> bool
    ensures { result ≡ same_value (value a) (value b) }
{
    Word(u32::from(a.0)).same(Word(u32::from(b.0)))
}

/// Whether an association is of a metaclass: of the same class as that of the global, with nil as key and the metaclass as value.
#[tactic(auto, using(st_model::proofs::Runs::runs), unfolding(crate::specs::Owners::is_of_metaclass, st_model::specs::Values::value_of))]
fn is_of_metaclass<M: Memory>(
    m: &M,
    global: Oop,
    metaclass: Oop,
    association: Oop,
) -> Result<bool, Dead>
    ensures { let t = (M.view m.now).objects in
        Reads (is_of_metaclass table (value global) (value metaclass) (value association)) itself t result }
{
    let kind = class_of(m, global)?;
    let own = class_of(m, association)?;
    let key = fetch_field(m, association, 0)?;
    let class = fetch_field(m, association, 1)?;
    Ok(same(own, kind) && (same(key, Oop::NIL) && same(class, metaclass)))
}

/// Whether a value is the association of a method's class, where this is the global's.
#[tactic(auto, using(st_model::proofs::Runs::runs), unfolding(crate::specs::Owners::owns_by))]
fn owns_by<M: Memory>(m: &M, global: Oop, of: Compiled<'_>, v: Oop) -> Result<bool, Dead>
    ensures { let t = (M.view m.now).objects in
        Reads (owns_by table (value global) (value of.entry.class) (value v) of.entry.meta) itself t result }
{
    if of.meta {
        is_of_metaclass(m, global, of.class, v)
    } else {
        Ok(same(v, global))
    }
}

/// Whether a value is the association of a method's class.
#[tactic(auto, using(st_model::proofs::Runs::runs), unfolding(crate::specs::Owners::owns))]
fn owns<M: Memory>(m: &M, globals: Oop, of: Compiled<'_>, v: Oop) -> Result<bool, Dead>
    ensures { let t = (M.view m.now).objects in
        Reads
        (owns table (value globals) of.entry.name.now (value of.entry.class) (value v) of.entry.meta)
        itself t result }
{
    let global = class_association(m, globals, of.name)?;
    owns_by(m, global, of, v)
}

/// Whether a value is the association of a method's class. Where there is no such class it isn't.
#[tactic(auto, using(crate::proofs::Owning::owners))]
pub(crate) fn is_owner<M: Memory>(m: &M, of: Compiled<'_>, v: Oop) -> bool
    ensures { let w = M.view m.now in
        result ≡ is_owner_among w.objects w.head.globals of.entry.name.now
        (value of.entry.class) of.entry.meta (value v) }
{
    let globals = m.globals();
    if globals.0 == 0 {
        return false;
    }
    match owns(m, globals, of, v) {
        Ok(owner) => owner,
        Err(_) => false,
    }
}
