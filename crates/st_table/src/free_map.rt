ghost use Rattle.std.specs.Prelude.{◌≡◌, ◌≢◌, ◌<◌, ◌≤◌, ◌*◌, ◌/◌, ◌+◌, ◌^◌, ◌-◌, ℕ, length, replicate, IfOk, IfSome, IfNone, slice_index};
ghost use Rattle.st_table.specs.inside.Bits.{bit, IsSummary, IsLeast, SameOtherBits};

use std::alloc::{AllocError, Global};

/// Which of 32768 places are taken: a bit for each, and a summary in which bit j says that word j is full.
#[derive(Drop)]
pub struct FreeMap {
    words: Vec<u64>,
    full: Vec<u64>,
    ghost summary: { IsSummary words.items full.items },
    ghost size: { length words.items ≡ 512 },
}

impl FreeMap {
    /// The places from 1 to n are free, and all others taken.
    pub fn with_free(alloc: Global, n: usize) -> Result<FreeMap, AllocError>
        requires { n < 32768 }
        ensures free { IfOk result (λ m. (k : ℕ) → 0 < k → k ≤ n → bit m.words.items k ≡ 0) }
        ensures first { IfOk result (λ m. bit m.words.items 0 ≡ 1) }
        ensures others { IfOk result (λ m. (k : ℕ) → n < k → k < 32768 → bit m.words.items k ≡ 1) }
    {
        let mut places = FreeMap::full(alloc)?;
        for k in 0..n {
            places.free(k + 1);
        }
        Ok(places)
    }

    /// All places are taken.
    fn full(alloc: Global) -> Result<FreeMap, AllocError>
        ensures { IfOk result (λ m. (k : ℕ) → k < 32768 → bit m.words.items k ≡ 1) }
    {
        let words = ones(alloc, 512)?;
        let full = ones(alloc, 8)?;
        Ok(FreeMap { words, full })
    }

    /// The least place that is free.
    pub fn least_free(&self) -> Option<usize>
        ensures least { IfSome result (IsLeast self.now.words.items) }
        ensures within { IfSome result (λ k. k < 32768) }
        ensures none { IfNone result ((k : ℕ) → k < 32768 → bit self.now.words.items k ≡ 1) }
    {
        for s in 0..self.full.len() {
            let flags = word_at(&self.full, s);
            if flags != u64::MAX {
                let j = 64 * s + flags.trailing_ones() as usize;
                let word = word_at(&self.words, j);
                return Some(64 * j + word.trailing_ones() as usize);
            }
        }
        None
    }

    /// Takes a place that is free.
    pub fn take(&mut self, k: usize)
        requires within { k < 32768 }
        requires free { bit self.old.words.items k ≡ 0 }
        ensures taken { bit self.new.words.items k ≡ 1 }
        ensures others { (i : ℕ) → i ≢ k → bit self.new.words.items i ≡ bit self.old.words.items i }
    {
        set_bit(&mut self.words, k);
        if word_at(&self.words, k / 64) == u64::MAX {
            set_bit(&mut self.full, k / 64);
        }
    }

    /// Frees a place.
    pub fn free(&mut self, k: usize)
        requires { k < 32768 }
        ensures free { bit self.new.words.items k ≡ 0 }
        ensures others { (i : ℕ) → i ≢ k → bit self.new.words.items i ≡ bit self.old.words.items i }
    {
        clear_bit(&mut self.words, k);
        clear_bit(&mut self.full, k / 64);
    }
}

/// Words whose bits are all set.
fn ones(alloc: Global, n: usize) -> Result<Vec<u64>, AllocError>
    ensures { IfOk result (λ v. v.items ≡ replicate n (2 ^ 64 - 1)) }
{
    vec![in alloc; u64::MAX; n]
}

/// Sets one bit.
fn set_bit(words: &mut Vec<u64>, k: usize)
    requires { k < 64 * length words.old.items }
    ensures set { bit words.new.items k ≡ 1 }
    ensures rest { SameOtherBits words.old.items words.new.items k }
{
    words[k / 64] |= 1 << (k % 64);
}

/// Clears one bit.
fn clear_bit(words: &mut Vec<u64>, k: usize)
    requires { k < 64 * length words.old.items }
    ensures clear { bit words.new.items k ≡ 0 }
    ensures rest { SameOtherBits words.old.items words.new.items k }
    ensures room { slice_index words.new.items (k / 64) + 1 < 2 ^ 64 }
{
    words[k / 64] &= !(1 << (k % 64));
}

/// One word.
fn word_at(words: &Vec<u64>, j: usize) -> u64
    requires { j < length words.now.items }
    ensures { result ≡ slice_index words.now.items j }
{
    words[j]
}
