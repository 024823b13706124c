//! Words side by side in a block of memory of their own, reached by a pointer.
ghost use Rattle.std.specs.Prelude.{◌≡◌, ℕ, ◌*◌, ◌^◌, ◌<◌, List, replicate, IfOk};
ghost use Rattle.std.specs.Borrow.{sem, full_share, Array, u16};
ghost use Rattle.std.specs.Ptr.{lies_at};
ghost use Rattle.std.specs.declared.alloc.Global.{Global as Handle};
ghost use Rattle.st_cells.specs.inside.Owned.{block_of_words, words_owned, words_lent};

use std::alloc::{AllocError, Allocator, Global};
use std::marker::Model;

/// The owner of a block of words. It is given back by `free`.
pub(crate) struct Region {
    at: *mut u16,
    len: usize,
    ghost alloc: { Handle },
    pub(crate) ghost words: { List ℕ },
}

impl Model for Region {
    ghost also_owns = { λ r. words_owned r.alloc r.at r.len r.words };

    ghost also_shares = { λ r _ κ. words_lent r.at r.len r.words κ };
}

impl Region {
    ghost use Rattle.st_cells.specs.inside.Lent.{LendsWords};

    /// So many words, which are all 0.
    pub(crate) fn zeros(alloc: &Global, len: usize) -> Result<Region, AllocError>
        requires { len < 2 ^ 62 }
        ensures { IfOk result (λ r. r.words ≡ replicate len 0) }
    {
        match alloc.allocate(len * 2, 2) {
            Ok(block) => {
                let at = block as *mut u16;
                unsafe { write_zeros(at, len) };
                Ok(Region { at, len })
            }
            Err(error) => Err(error),
        }
    }

    /// The words, to be read.
    pub(crate) fn words(&self) -> &[u16]
        ensures { result.now ≡ self.now.words }
    {
        unsafe { std::slice::from_raw_parts(self.at, self.len) }
    }

    /// The words, to be written.
    pub(crate) fn words_mut(&mut self) -> &mut [u16]
        ensures* writes_back { sem 𝓛 (LendsWords self.entry result) }
        ensures value { result.now ≡ self.old.words }
    {
        unsafe { std::slice::from_raw_parts_mut(self.at, self.len) }
    }

    /// Gives the block back.
    pub(crate) fn free(self, alloc: &Global) {
        let Region { at, len } = self;
        unsafe { alloc.deallocate(at as *mut u8, len * 2, 2) }
    }
}

/// Writes 0 to each place of a block for so many words.
unsafe fn write_zeros(at: *mut u16, len: usize)
    requires small { len < 2 ^ 62 }
    requires* room { sem 𝓛 (block_of_words at len) }
    ensures* { sem 𝓛 (lies_at (Array u16 len) full_share at (replicate len 0)) }
{
    let mut k = 0;
    while k < len {
        unsafe { at.add(k).write(0) };
        k += 1;
    }
}
