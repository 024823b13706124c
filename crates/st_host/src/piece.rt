// Writes a file from one place on, a piece of some hundred bytes at a time.
ghost use Rattle.std.specs.Prelude.{◌≡◌, ◌+◌, ◌<◌, ◌≤◌, ◌^◌, ◌++◌, List, [], ℕ, length, IsTrue, IfOk, OnOk, Some};
ghost use Rattle.st_host.specs.Counts.{HasCause};
ghost use Rattle.st_host.specs.Runs.{IsSynced};
ghost use Rattle.st_host.specs.inside.Pieces.{end_of, Holds, WritesFrom, Pushes};

use crate::{Host, HostFault, cut_synced, write_bytes};
use std::marker::Model;

/// Bytes that are still to be written to a file, at most 512, and the place in it at which they begin.
#[derive(Drop)]
pub struct Piece {
    at: u64,
    used: usize,
    bytes: [u8; 512],
}

impl Model for Piece {
    ghost use Rattle.std.specs.Prelude.{◌≤◌, take};
    ghost use Rattle.st_host.specs.inside.Pieces.{Held};

    ghost Value = { Held };

    ghost view = { λ p. record { at = p.at; bytes = take p.used p.bytes } };

    ghost invariant = { λ p. p.used ≤ 512 };
}

impl Piece {
    /// The most bytes that are held back.
    const MOST: usize = 512;

    /// No bytes, at a place of a file.
    pub fn new(at: u64) -> Piece
        ensures { result ≡ record { at = at; bytes = [] } }
    {
        Piece {
            at,
            used: 0,
            bytes: [0; 512],
        }
    }

    /// Writes the bytes that are held back. The file is not synced.
    pub fn flush<H: Host>(&mut self, host: &mut H, name: &str) -> Result<(), HostFault>
        requires { end_of self.old < 2 ^ 64 }
        ensures done { OnOk result (self.new ≡ record { at = end_of self.old; bytes = [] }) }
        ensures text { OnOk result (IsTrue H.is_told → (t : List ℕ)
            → Holds (H.files host.old name.now) self.old t → Holds (H.files host.new name.now) self.new t) }
        ensures writes { WritesFrom H.Host.own self.old name.now host.old host.new }
        ensures cause { HasCause (H.disk_faults host.old) (H.disk_faults host.new) result }
    {
        write_bytes(host, name, self.at, &self.bytes[..self.used])?;
        self.at += self.used as u64;
        self.used = 0;
        Ok(())
    }

    /// Writes the bytes that are held back where so many more have no place beside them.
    fn make_room<H: Host>(
        &mut self,
        host: &mut H,
        name: &str,
        count: usize,
    ) -> Result<(), HostFault>
        requires few { count ≤ 512 }
        requires end { end_of self.old < 2 ^ 64 }
        ensures room { OnOk result (length self.new.bytes + count ≤ 512) }
        ensures on { OnOk result (self.old.at ≤ self.new.at) }
        ensures end { OnOk result (end_of self.new ≡ end_of self.old) }
        ensures text { OnOk result (IsTrue H.is_told → (t : List ℕ)
            → Holds (H.files host.old name.now) self.old t → Holds (H.files host.new name.now) self.new t) }
        ensures writes { WritesFrom H.Host.own self.old name.now host.old host.new }
        ensures cause { HasCause (H.disk_faults host.old) (H.disk_faults host.new) result }
    {
        if self.used + count > Piece::MOST {
            self.flush(host, name)?;
        }
        Ok(())
    }

    /// Holds more bytes back, which there is place for.
    fn hold(&mut self, bytes: &[u8])
        requires { length self.old.bytes + length bytes.now ≤ 512 }
        ensures { self.new ≡ record self.old { bytes = self.old.bytes ++ bytes.now } }
    {
        let end = self.used + bytes.len();
        self.bytes[self.used..end].copy_from_slice(bytes);
        self.used = end;
    }

    /// Adds at most 512 bytes to the file. They may be held back for now.
    pub fn push<H: Host>(&mut self, host: &mut H, name: &str, bytes: &[u8]) -> Result<(), HostFault>
        requires few { length bytes.now ≤ 512 }
        requires end { end_of self.old < 2 ^ 64 }
        ensures { Pushes H.Host.own name.now bytes.now host.old host.new self.old self.new result }
    {
        self.make_room(host, name, bytes.len())?;
        self.hold(bytes);
        Ok(())
    }

    /// Writes all that is held back, gives the file the length that it then has, and syncs it. Answers the length.
    pub fn finish<H: Host>(self, host: &mut H, name: &str) -> Result<u64, HostFault>
        requires { end_of self < 2 ^ 64 }
        ensures length { IfOk result (λ l. l ≡ end_of self) }
        ensures file { OnOk result (IsTrue H.is_told → (t : List ℕ) → Holds (H.files host.old name.now) self t
            → H.files host.new name.now ≡ Some t) }
        ensures synced { OnOk result (IsSynced H.Host.own name.now host.new) }
        ensures writes { WritesFrom H.Host.own self name.now host.old host.new }
        ensures cause { HasCause (H.disk_faults host.old) (H.disk_faults host.new) result }
    {
        let mut piece = self;
        piece.flush(host, name)?;
        cut_synced(host, name, piece.at)?;
        Ok(piece.at)
    }
}
