// The source of the real program. It tells nothing of what it reads.
ghost use Rattle.std.specs.Prelude.{◌≡◌, false, []};

use st_host::{ReadFault, Source};
use std::io::Read;

/// Standard input.
///
/// Each error raises the count, up to the last value of 64 bits.
#[derive(Drop)]
pub struct StdinSource<R: Input> {
    reader: R::Reader,
    read_faults: u64,
}

impl<R: Input> StdinSource<R> {
    /// A source over the input of this runtime, of which no call has failed.
    pub fn new(rt: &R) -> StdinSource<R>
        ensures { ⟦<StdinSource<R> as Source>⟧.read_faults result ≡ 0 }
    {
        StdinSource {
            reader: rt.reader(),
            read_faults: 0,
        }
    }
}

impl<R: Input> Source for StdinSource<R> {
    ghost is_told = { false };

    ghost remaining = { λ _. [] };

    ghost read_faults = { λ s. s.read_faults };

    fn take(&mut self, into: &mut [u8]) -> Result<usize, ReadFault> {
        match self.reader.read(into) {
            Ok(count) => Ok(count),
            Err(_) => {
                self.read_faults = self.read_faults.saturating_add(1);
                Err(ReadFault)
            }
        }
    }
}
