ghost use Rattle.std.specs.Prelude.{◌≡◌, length, IfOk};
ghost use Rattle.st_model.specs.Settled.{is_marked};
ghost use Rattle.st_clean.specs.Reach.{IsReach};

use crate::state::Found;
use st_memory::Memory;
use std::alloc::{AllocError, Global};

/// By half of the pointer, whether an image of this memory needs it.
pub fn reach<M: Memory>(alloc: Global, m: &M) -> Result<Vec<bool>, AllocError>
    ensures long { IfOk result (λ marks. length marks.items ≡ 32768) }
    ensures reach { let v = M.view m.now in
        IfOk result (λ marks. IsReach v.objects v.head (is_marked marks.items)) }
{
    let mut found = Found::new(alloc)?;
    found.note_first(m)?;
    let mut next = 0;
    'found: while next < found.list.len() {
        let o = found.list[next];
        found.note_references(m, o)?;
        next += 1;
    }
    Ok(found.marks)
}
