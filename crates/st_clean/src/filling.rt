ghost use Rattle.std.specs.Prelude.{◌≡◌, ◌≢◌, ◌<◌, ◌≤◌, ◌+◌, ℕ, length, true, false, IfOk};
ghost use Rattle.st_model.specs.{Values.{value, Ref}, Objects.{is_words, is_pointers, is_method}};
ghost use Rattle.st_model.specs.{Settled.is_marked, View.{is_live, object_of}};
ghost use Rattle.st_clean.specs.Reach.{IsClosed};
ghost use Rattle.st_clean.specs.Filling.{Puts, PutsPart, HasRoom, IsAmong, FilledBelow, only};

use st_memory::{Loader, Memory, count_fields, count_units};
use st_model::{Kind, Oop};
use std::alloc::{AllocError, Global};

/// How many literals an object has; none but of a Method.
fn count_literals<M: Memory>(m: &M, o: Oop, fields: u32) -> u32
    requires live { is_live (M.view m.now).objects (value o) ≡ true }
    requires fields { fields ≡ length (object_of (M.view m.now).objects (value o)).fields }
    ensures method { is_method (object_of (M.view m.now).objects (value o)).kind ≡ true
        → result + 1 ≡ fields }
    ensures other { is_method (object_of (M.view m.now).objects (value o)).kind ≡ false → result ≡ 0 }
{
    if m.kind(o).is_method() { fields - 1 } else { 0 }
}

/// Places an object of the same class, kind and size.
fn place_copy<M: Memory, L: Loader>(loader: &mut L, m: &M, o: Oop, fields: u32)
    requires live { is_live (M.view m.now).objects (value o) ≡ true }
    requires fields { fields ≡ length (object_of (M.view m.now).objects (value o)).fields }
    requires room { HasRoom (L.loaded loader.old) (value o) (object_of (M.view m.now).objects (value o)) }
    ensures { PutsPart (L.loaded loader.old) (L.loaded loader.new) (value o) 0 0
        (object_of (M.view m.now).objects (value o)) }
{
    let literals = count_literals(m, o, fields);
    loader.place(o, m.class_of(o), m.kind(o), m.size(o), literals);
}

/// Copies the fields of an object that was placed.
fn copy_fields<M: Memory, L: Loader>(loader: &mut L, m: &M, o: Oop, fields: u32)
    requires live { is_live (M.view m.now).objects (value o) ≡ true }
    requires fields { fields ≡ length (object_of (M.view m.now).objects (value o)).fields }
    requires placed { IsAmong (L.loaded loader.old) (value o) 0 0
        (object_of (M.view m.now).objects (value o)) }
    ensures { PutsPart (L.loaded loader.old) (L.loaded loader.new) (value o) fields 0
        (object_of (M.view m.now).objects (value o)) }
{
    for i in 0..fields {
        loader.set_pointer(o, i, m.pointer(o, i));
    }
}

/// Copies the words of an object of kind Words whose fields are there.
fn copy_words<M: Memory, L: Loader>(loader: &mut L, m: &M, o: Oop, fields: u32, units: u32)
    requires live { is_live (M.view m.now).objects (value o) ≡ true }
    requires kind { is_words (object_of (M.view m.now).objects (value o)).kind ≡ true }
    requires units { units ≡ length (object_of (M.view m.now).objects (value o)).units }
    requires placed { IsAmong (L.loaded loader.old) (value o) fields 0
        (object_of (M.view m.now).objects (value o)) }
    ensures { PutsPart (L.loaded loader.old) (L.loaded loader.new) (value o) fields units
        (object_of (M.view m.now).objects (value o)) }
{
    for i in 0..units {
        loader.set_word(o, i, m.word(o, i));
    }
}

/// Copies the bytes of an object of kind Bytes or Method whose fields are there.
fn copy_bytes<M: Memory, L: Loader>(loader: &mut L, m: &M, o: Oop, fields: u32, units: u32)
    requires live { is_live (M.view m.now).objects (value o) ≡ true }
    requires words { is_words (object_of (M.view m.now).objects (value o)).kind ≡ false }
    requires pointers { is_pointers (object_of (M.view m.now).objects (value o)).kind ≡ false }
    requires fields { fields ≡ length (object_of (M.view m.now).objects (value o)).fields }
    requires units { units ≡ length (object_of (M.view m.now).objects (value o)).units }
    requires placed { IsAmong (L.loaded loader.old) (value o) fields 0
        (object_of (M.view m.now).objects (value o)) }
    ensures { PutsPart (L.loaded loader.old) (L.loaded loader.new) (value o) fields units
        (object_of (M.view m.now).objects (value o)) }
{
    for i in 0..units {
        loader.set_byte(o, 2 * fields + i, m.byte(o, 2 * fields + i));
    }
}

/// Copies an object to the same pointer.
fn copy_object<M: Memory, L: Loader>(loader: &mut L, m: &M, o: Oop)
    requires live { is_live (M.view m.now).objects (value o) ≡ true }
    requires room { HasRoom (L.loaded loader.old) (value o) (object_of (M.view m.now).objects (value o)) }
    ensures { Puts (L.loaded loader.old) (L.loaded loader.new) (value o)
        (object_of (M.view m.now).objects (value o)) }
{
    let fields = count_fields(m, o);
    let units = count_units(m, o, fields);
    place_copy(loader, m, o, fields);
    copy_fields(loader, m, o, fields);
    copy_units(loader, m, o, fields, units);
}

/// Copies the words or bytes of an object whose fields are there.
fn copy_units<M: Memory, L: Loader>(loader: &mut L, m: &M, o: Oop, fields: u32, units: u32)
    requires live { is_live (M.view m.now).objects (value o) ≡ true }
    requires fields { fields ≡ length (object_of (M.view m.now).objects (value o)).fields }
    requires units { units ≡ length (object_of (M.view m.now).objects (value o)).units }
    requires placed { IsAmong (L.loaded loader.old) (value o) fields 0
        (object_of (M.view m.now).objects (value o)) }
    ensures { PutsPart (L.loaded loader.old) (L.loaded loader.new) (value o) fields units
        (object_of (M.view m.now).objects (value o)) }
{
    let kind = m.kind(o);
    if kind.is_words() {
        copy_words(loader, m, o, fields, units);
    } else if !kind.is_pointers() {
        copy_bytes(loader, m, o, fields, units);
    }
}

/// The pointer of a place of the table.
#[tactic(auto, unfolding(st_model::specs::Values::value_of))]
fn pointer_of(k: usize) -> Oop
    requires { k < 32768 }
    ensures { value result ≡ Ref k }
{
    Oop((2 * k) as u16)
}

/// Copies the objects of a set to the same pointers.
fn fill<M: Memory, L: Loader>(loader: &mut L, m: &M, marks: &[bool])
    requires long { length marks.now ≡ 32768 }
    requires live { (k : ℕ) → is_marked marks.now k ≡ true → is_live (M.view m.now).objects (Ref k) ≡ true }
    requires empty { FilledBelow (is_marked marks.now) 0 (M.view m.now) (L.loaded loader.old) }
    ensures { let v = M.view m.now in L.loaded loader.new ≡ only v.objects v.head (is_marked marks.now) }
{
    for k in 0..marks.len() {
        if marks[k] {
            copy_object(loader, m, pointer_of(k));
        }
    }
}

/// A memory of just the objects of a closed set, at the same pointers, under the same head.
pub fn restricted<M: Memory, L: Loader>(
    alloc: Global,
    m: &M,
    marks: &[bool],
) -> Result<L::Done, AllocError>
    requires long { length marks.now ≡ 32768 }
    requires live { (k : ℕ) → is_marked marks.now k ≡ true → is_live (M.view m.now).objects (Ref k) ≡ true }
    requires closed { let v = M.view m.now in IsClosed v.objects v.head (is_marked marks.now) }
    ensures { let v = M.view m.now in
        IfOk result (λ d. L.Done.view d ≡ only v.objects v.head (is_marked marks.now)) }
{
    let mut loader = L::begin(alloc, m.capacity(), m.globals(), m.symbols())?;
    fill(&mut loader, m, marks);
    Ok(loader.finish())
}
