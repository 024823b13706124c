ghost use Rattle.std.specs.Prelude.{◌≡◌, ◌*◌, ◌<◌, true, false, IfOk};
ghost use Rattle.st_model.specs.{Values.{value, Ref}, Objects.is_words, Lists.made, Image.is_used};
ghost use Rattle.st_model.specs.Start.{kind_in, entry_in, machine_head, start_view};
ghost use Rattle.st_image.specs.inside.Rows.{IsCleanBelow};
ghost use Rattle.st_image.specs.inside.Loads.{IsSound, IsShape, HasRoom, fresh_in, filled_in, IsAt, IsEmpty, Puts, PutsObject};

use crate::image::Image;
use crate::shape::{Shape, shape_of};
use st_memory::Loader;
use st_model::{Demand, Oop};
use std::alloc::{AllocError, Global};

/// The pointer of an entry.
#[tactic(auto, unfolding(st_model::specs::Values::value_of))]
fn pointer_of(k: usize) -> Oop
    requires { k < 32768 }
    ensures value { value result ≡ Ref k }
    ensures pointer { result.0 ≡ 2 * k }
{
    Oop((2 * k) as u16)
}

/// Places the object of an entry in use, with nil in its fields and 0 in its units.
fn place_object<L: Loader>(loader: &mut L, image: &Image<'_>, k: usize, shape: Shape)
    requires used { is_used image.now.head image.now.bytes.now k ≡ true }
    requires shape { IsShape image.now.head image.now.bytes.now k shape }
    requires room { HasRoom image.now.head image.now.bytes.now (L.loaded loader.old) k }
    ensures { Puts (L.loaded loader.old) (L.loaded loader.new) k
        (fresh_in image.now.head image.now.bytes.now k) }
{
    let at = pointer_of(k);
    let class = Oop(image.class(k));
    loader.place(at, class, shape.kind, shape.size(), shape.literals());
}

/// Stores the fields of an object that was placed.
fn load_fields<L: Loader>(loader: &mut L, image: &Image<'_>, k: usize, shape: Shape)
    requires shape { IsShape image.now.head image.now.bytes.now k shape }
    requires at { IsAt (L.loaded loader.old) k (fresh_in image.now.head image.now.bytes.now k) }
    ensures { Puts (L.loaded loader.old) (L.loaded loader.new) k
        (filled_in image.now.head image.now.bytes.now k) }
{
    for i in 0..shape.fields {
        loader.set_pointer(pointer_of(k), i as u32, Oop(image.body(k, i)));
    }
}

/// Stores the words of an object of words that was placed.
fn load_words<L: Loader>(loader: &mut L, image: &Image<'_>, k: usize, shape: Shape)
    requires kind { is_words (kind_in image.now.head image.now.bytes.now k) ≡ true }
    requires shape { IsShape image.now.head image.now.bytes.now k shape }
    requires at { IsAt (L.loaded loader.old) k (filled_in image.now.head image.now.bytes.now k) }
    ensures { PutsObject (L.loaded loader.old) (L.loaded loader.new) image.now.head image.now.bytes.now k }
{
    for i in 0..shape.units {
        loader.set_word(pointer_of(k), i as u32, image.body(k, i));
    }
}

/// Stores the bytes of an object that has its fields.
fn load_bytes<L: Loader>(loader: &mut L, image: &Image<'_>, k: usize, shape: Shape)
    requires kind { is_words (kind_in image.now.head image.now.bytes.now k) ≡ false }
    requires shape { IsShape image.now.head image.now.bytes.now k shape }
    requires at { IsAt (L.loaded loader.old) k (filled_in image.now.head image.now.bytes.now k) }
    ensures { PutsObject (L.loaded loader.old) (L.loaded loader.new) image.now.head image.now.bytes.now k }
{
    let start = 512 + 2 * (image.place(k) + 2 + shape.fields);
    for i in 0..shape.units {
        let at = (2 * shape.fields + i) as u32;
        loader.set_byte(pointer_of(k), at, image.bytes[start + i]);
    }
}

/// Loads the object of an entry in use.
fn load_object<L: Loader>(loader: &mut L, image: &Image<'_>, k: usize)
    requires used { is_used image.now.head image.now.bytes.now k ≡ true }
    requires sound { IsSound image.now.head image.now.bytes.now k }
    requires room { HasRoom image.now.head image.now.bytes.now (L.loaded loader.old) k }
    ensures { PutsObject (L.loaded loader.old) (L.loaded loader.new) image.now.head image.now.bytes.now k }
{
    let shape = shape_of(image, k);
    place_object(loader, image, k, shape);
    load_fields(loader, image, k, shape);
    if shape.kind.is_words() {
        load_words(loader, image, k, shape);
    } else {
        load_bytes(loader, image, k, shape);
    }
}

/// Loads the objects of an image that has no fault but perhaps that of its scheduler.
pub fn load_all<L: Loader>(loader: &mut L, image: &Image<'_>)
    requires clean { IsCleanBelow image.now.head image.now.bytes.now 10 }
    requires empty { IsEmpty (L.loaded loader.old).objects }
    requires head { (L.loaded loader.old).head ≡ machine_head image.now.head }
    ensures objects { (L.loaded loader.new).objects ≡ made
        (entry_in image.now.head image.now.bytes.now) 32768 }
    ensures held { (L.loaded loader.new).held ≡ (L.loaded loader.old).held }
    ensures head { (L.loaded loader.new).head ≡ (L.loaded loader.old).head }
{
    for k in 0..image.entries() {
        if image.is_used(k) {
            load_object(loader, image, k);
        }
    }
}

/// The memory of the objects of an image that has no fault but perhaps that of its scheduler.
pub fn load<L: Loader>(alloc: Global, image: &Image<'_>) -> Result<L::Done, AllocError>
    requires { IsCleanBelow image.now.head image.now.bytes.now 10 }
    ensures { IfOk result (λ done. L.Done.view done ≡ start_view image.now.head image.now.bytes.now) }
{
    let head = image.head;
    let capacity = Demand {
        entries: head.entries,
        words: head.words,
    };
    let globals = Oop(head.globals as u16);
    let symbols = Oop(head.symbols as u16);
    let mut loader = L::begin(alloc, capacity, globals, symbols)?;
    load_all(&mut loader, image);
    Ok(loader.finish())
}
