// The source: bytes that are read in.
ghost use Rattle.std.specs.Prelude.{◌≡◌, ◌≤◌, ◌⊎◌, ◌++◌, [], ℕ, Bool, IsTrue, List, length, take, IfOk, IfErr};
ghost use Rattle.st_host.specs.Counts.{HasCause};

/// A call of `take` failed.
#[derive(Clone, Copy, Debug, PartialEq, Eq)]
pub struct ReadFault;

/// Bytes that are read in, from first to last.
///
/// A source that tells its bytes is one of which the clauses on them hold. Of every source the clauses on counts and
/// lengths hold.
pub trait Source {
    /// Whether sources of this type tell their bytes.
    ghost is_told: { Bool };

    /// The bytes that are left.
    ghost remaining: { Self → List ℕ };

    /// How many calls failed.
    ghost read_faults: { Self → ℕ };

    /// Takes bytes into the front of the slice, and answers how many. They may be fewer than are left, but 0 comes
    /// only for an empty slice or at the end. A call that fails takes none. What the slice holds behind them, and
    /// after an error, is left open.
    fn take(&mut self, into: &mut [u8]) -> Result<usize, ReadFault>
        ensures within { IfOk result (λ k. k ≤ length into.old) }
        ensures takes { IfOk result (λ k. IsTrue is_told
            → remaining self.old ≡ take k into.new ++ remaining self.new) }
        ensures keeps { IfErr result (λ _. IsTrue is_told → remaining self.new ≡ remaining self.old) }
        ensures end { IfOk result (λ k. IsTrue is_told → k ≡ 0
            → (length into.old ≡ 0) ⊎ (remaining self.old ≡ [])) }
        ensures cause { HasCause (read_faults self.old) (read_faults self.new) result };
}
