ghost use Rattle.std.specs.Prelude.{◌≡◌, length};
ghost use Rattle.st_model.specs.Faults.{root_fails, roots};
ghost use Rattle.st_image.specs.inside.Passes.{IsLeastAmong, IsLesser};

use crate::image::Image;
use st_model::ImageHead;

/// The pointers that have to name entries in use, but for 0: those of the root page, and the two of the head.
fn roots(head: ImageHead) -> [u32; 22]
    ensures { result ≡ roots head }
{
    let [globals, symbols] = [head.globals, head.symbols];
    [
        2, 4, 6, 8, 12, 14, 16, 22, 24, 26, 28, 32, 34, 40, 42, 44, 48, 50, 52, 56, globals,
        symbols,
    ]
}

/// Whether a root isn't 0 and names no entry in use.
#[tactic(auto, unfolding(st_model::specs::Faults::root_fails))]
fn root_fails(image: &Image<'_>, pointer: u32) -> bool
    ensures { result ≡ root_fails image.now.head image.now.bytes.now pointer }
{
    pointer != 0 && !image.names(pointer)
}

/// Of a wrong root, or none, and one more pointer the lesser one that is a wrong root.
fn lesser(image: &Image<'_>, least: Option<u32>, pointer: u32) -> Option<u32>
    ensures { IsLesser (root_fails image.now.head image.now.bytes.now) least pointer result }
{
    match least {
        Some(found) if found <= pointer => least,
        _ if root_fails(image, pointer) => Some(pointer),
        _ => least,
    }
}

/// The least of some pointers that is a wrong root.
fn least_failing(image: &Image<'_>, pointers: &[u32]) -> Option<u32>
    ensures { IsLeastAmong (root_fails image.now.head image.now.bytes.now) pointers.now
        (length pointers.now) result }
{
    let mut least = None;
    for pointer in pointers {
        least = lesser(image, least, *pointer);
    }
    least
}

/// The least wrong root.
pub fn least_bad_root(image: &Image<'_>) -> Option<u32>
    ensures { IsLeastAmong (root_fails image.now.head image.now.bytes.now) (roots image.now.head) 22 result }
{
    least_failing(image, &roots(image.head))
}
