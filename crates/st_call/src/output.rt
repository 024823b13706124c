ghost use Rattle.std.specs.Prelude.{◌≡◌, ◌<◌, ◌++◌, [], ◌∷◌, length, OnOk};
ghost use Rattle.st_host.specs.Counts.{HasCause};
ghost use Rattle.st_host.specs.Runs.{SaysAll};
ghost use Rattle.st_host.specs.inside.Telling.{Says};
ghost use Rattle.st_call.specs.inside.Saying.{Pushes};

use st_host::{Host, SayFault, say_all};
use std::marker::Model;

/// What comes of adding to an output: a fault where bytes that were held back could not be said.
pub type Pushed = Result<(), SayFault>;

/// Bytes that are still to be said, at most 512. Clauses see them as a list.
#[derive(Drop)]
pub struct Output {
    used: usize,
    bytes: [u8; 512],
}

impl Model for Output {
    ghost use Rattle.std.specs.Prelude.{◌≤◌, ℕ, List, take};

    ghost Value = { List ℕ };

    ghost view = { λ o. take o.used o.bytes };

    ghost invariant = { λ o. o.used ≤ 512 };
}

impl Output {
    /// The most bytes that are held back.
    const MOST: usize = 512;

    /// No bytes.
    pub fn new() -> Output
        ensures { result ≡ [] }
    {
        Output {
            used: 0,
            bytes: [0; 512],
        }
    }

    /// Says the bytes that are held back.
    pub(crate) fn flush<H: Host>(&mut self, host: &mut H) -> Pushed
        ensures pushes { Pushes H.Host.own [] host.old host.new self.old self.new result }
        ensures empty { OnOk result (self.new ≡ []) }
    {
        say_all(host, &self.bytes[..self.used])?;
        self.used = 0;
        Ok(())
    }

    /// Says the bytes that are held back where one more has no place beside them.
    fn make_room<H: Host>(&mut self, host: &mut H) -> Pushed
        ensures pushes { Pushes H.Host.own [] host.old host.new self.old self.new result }
        ensures room { OnOk result (length self.new < 512) }
    {
        if self.used == Output::MOST {
            self.flush(host)?;
        }
        Ok(())
    }

    /// Holds one more byte back, which there is place for.
    fn hold(&mut self, byte: u8)
        requires { length self.old < 512 }
        ensures { self.new ≡ self.old ++ byte ∷ [] }
    {
        self.bytes[self.used] = byte;
        self.used += 1;
    }

    /// Adds a byte. Where there is no place for it, what is held back is said first.
    fn push_byte<H: Host>(&mut self, host: &mut H, byte: u8) -> Pushed
        ensures { Pushes H.Host.own (byte ∷ []) host.old host.new self.old self.new result }
    {
        self.make_room(host)?;
        self.hold(byte);
        Ok(())
    }

    /// Adds bytes. The last of them, at most 512, may be held back for now.
    pub fn push<H: Host>(&mut self, host: &mut H, bytes: &[u8]) -> Pushed
        ensures { Pushes H.Host.own bytes.now host.old host.new self.old self.new result }
    {
        for byte in bytes {
            self.push_byte(host, *byte)?;
        }
        Ok(())
    }

    /// Says all that is held back.
    pub fn finish<H: Host>(self, host: &mut H) -> Pushed
        ensures all { OnOk result (SaysAll H.Host.own self host.old host.new) }
        ensures says { Says H.Host.own self host.old host.new }
        ensures cause { HasCause (H.say_faults host.old) (H.say_faults host.new) result }
    {
        say_all(host, &self.bytes[..self.used])
    }
}
