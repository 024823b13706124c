ghost use Rattle.std.specs.Prelude.{◌≡◌, ◌≢◌, ◌*◌, ◌<◌, ℕ, length, true, false};
ghost use Rattle.st_model.specs.Values.{Value, value};
ghost use Rattle.st_lookup.specs.inside.Remembered.{on, IsOn, IsOff, Grows};

use st_model::Oop;
use std::alloc::{AllocError, Global};

/// Which pointers are watched.
#[derive(Drop)]
pub struct Watch {
    words: Vec<u64>,
    ghost size: { length words.items ≡ 512 },
}

/// Sets one bit.
fn set_bit(words: &mut Vec<u64>, k: usize)
    requires { k < 64 * length words.old.items }
    ensures size { length words.new.items ≡ length words.old.items }
    ensures set { on words.new.items k ≡ true }
    ensures others { (i : ℕ) → i ≢ k → on words.new.items i ≡ on words.old.items i }
{
    words[k / 64] |= 1 << (k % 64);
}

impl Watch {
    /// None is watched.
    pub fn new(alloc: Global) -> Result<Watch, AllocError> {
        let words = vec![in alloc; 0; 512]?;
        Ok(Watch { words })
    }

    /// Whether a pointer is watched.
    #[tactic(auto, using(crate::proofs::Watching::values))]
    pub fn has(&self, o: Oop) -> bool
        ensures off { result ≡ false → IsOff self.now.words.items (value o) }
        ensures on { result ≡ true → IsOn self.now.words.items (value o) }
    {
        let k = usize::from(o.0 / 2);
        (self.words[k / 64] >> (k % 64)) % 2 == 1
    }

    /// Watches a pointer.
    #[tactic(auto, using(crate::proofs::Watching::values))]
    pub fn add(&mut self, o: Oop)
        ensures on { IsOn self.new.words.items (value o) }
        ensures grows { Grows self.old.words.items self.new.words.items }
    {
        set_bit(&mut self.words, usize::from(o.0 / 2));
    }

    /// No pointer is watched any more.
    pub fn clear(&mut self)
        ensures { (v : Value) → IsOff self.new.words.items v }
    {
        self.words.fill(0);
    }
}
