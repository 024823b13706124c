// The host: files by name, and a place where bytes are said.
ghost use Rattle.std.specs.Prelude.{◌≡◌, ◌≢◌, ◌≤◌, ◌++◌, ℕ, Bool, IsTrue, List, length, Option, IfOk, OnOk};
ghost use Rattle.st_host.specs.Counts.{HasCause};
ghost use Rattle.st_host.specs.Files.{Files, bytes_of, length_of, Reads, IsWritten, IsCut};
ghost use Rattle.st_host.specs.Stops.{SameStops, Apart, Follows, TornByWrite, TornByCut, Here, SaidPart, WhileSaying, Elapses};

/// A call on a file failed.
#[derive(Clone, Copy, Debug, PartialEq, Eq)]
pub struct HostFault;

/// Some of the bytes to be said, or all of them, were not said.
#[derive(Clone, Copy, Debug, PartialEq, Eq)]
pub struct SayFault;

/// The files and the output of a machine.
///
/// A host that tells its contents is one of which the clauses on contents hold. Of every host the clauses on
/// counts and lengths hold. After an error nothing is known of the call's file but what a stop may leave of it.
pub trait Host {
    /// Whether hosts of this type tell their contents.
    ghost is_told: { Bool };

    /// What the files read as.
    ghost files: { Self → Files };

    /// What a stop at this moment may leave of a file.
    ghost may_leave: { Self → List ℕ → Option (List ℕ) → Type 0 };

    /// All bytes said.
    ghost said: { Self → List ℕ };

    /// The moment, a number that doesn't fall.
    ghost moment: { Self → ℕ };

    /// What a stop at some moment from that one on may have left, together with all bytes said by then.
    ghost left_since: { Self → ℕ → Files → List ℕ → Type 0 };

    /// How many calls on files failed.
    ghost disk_faults: { Self → ℕ };

    /// How many calls of `say` failed.
    ghost say_faults: { Self → ℕ };

    /// The length of a file in bytes, none exactly where it is absent.
    fn length(&mut self, name: &str) -> Result<Option<u64>, HostFault>
        ensures length { IfOk result (λ l. IsTrue is_told → l ≡ length_of (files self.old name.now)) }

        // The file reads as before, every other one also after an error. Nothing is said.
        ensures alike { OnOk result (IsTrue is_told → files self.new name.now ≡ files self.old name.now) }
        ensures others { IsTrue is_told → (n : List ℕ) → n ≢ name.now → files self.new n ≡ files self.old n }
        ensures quiet { IsTrue is_told → said self.new ≡ said self.old }

        ensures stops { IsTrue is_told → SameStops (may_leave self.old) (may_leave self.new) }
        ensures time { IsTrue is_told →
            Elapses (moment self.old) (moment self.new) (left_since self.old) (left_since self.new)
            (Here (may_leave self.new) (said self.new)) }

        ensures cause { HasCause (disk_faults self.old) (disk_faults self.new) result }
        ensures say_count { say_faults self.new ≡ say_faults self.old };

    /// Reads bytes of a file from the place `at` on into the front of the slice, and answers how many. They may be
    /// fewer than there are, but 0 comes only for an empty slice or at the file's end. What the slice holds behind
    /// them, and after an error, is left open.
    fn read_at(&mut self, name: &str, at: u64, into: &mut [u8]) -> Result<usize, HostFault>
        ensures within { IfOk result (λ k. k ≤ length into.old) }
        ensures reads { IfOk result (λ k. IsTrue is_told
            → Reads (bytes_of (files self.old name.now)) at k into.new) }

        // As in `length`.
        ensures alike { OnOk result (IsTrue is_told → files self.new name.now ≡ files self.old name.now) }
        ensures others { IsTrue is_told → (n : List ℕ) → n ≢ name.now → files self.new n ≡ files self.old n }
        ensures quiet { IsTrue is_told → said self.new ≡ said self.old }

        ensures stops { IsTrue is_told → SameStops (may_leave self.old) (may_leave self.new) }
        ensures time { IsTrue is_told →
            Elapses (moment self.old) (moment self.new) (left_since self.old) (left_since self.new)
            (Here (may_leave self.new) (said self.new)) }

        ensures cause { HasCause (disk_faults self.old) (disk_faults self.new) result }
        ensures say_count { say_faults self.new ≡ say_faults self.old };

    /// Writes bytes from the place `at` on over what is there, and past the end. An absent file is made.
    fn write_at(&mut self, name: &str, at: u64, bytes: &[u8]) -> Result<(), HostFault>
        ensures written { OnOk result (IsTrue is_told →
            IsWritten at bytes.now (files self.old name.now) (files self.new name.now)) }

        // Every other file is as before, also after an error. Nothing is said.
        ensures others { IsTrue is_told →
            Apart name.now (files self.old) (files self.new) (may_leave self.old) (may_leave self.new) }
        ensures quiet { IsTrue is_told → said self.new ≡ said self.old }

        ensures stops { IsTrue is_told →
            Follows (TornByWrite (files self.old name.now) at (length bytes.now))
            (may_leave self.old name.now) (may_leave self.new name.now) }
        ensures time { IsTrue is_told →
            Elapses (moment self.old) (moment self.new) (left_since self.old) (left_since self.new)
            (Here (may_leave self.new) (said self.new)) }

        ensures cause { HasCause (disk_faults self.old) (disk_faults self.new) result }
        ensures say_count { say_faults self.new ≡ say_faults self.old };

    /// Gives a file the length `len`. An absent file is made.
    fn cut(&mut self, name: &str, len: u64) -> Result<(), HostFault>
        ensures cut { OnOk result (IsTrue is_told →
            IsCut len (files self.old name.now) (files self.new name.now)) }

        // As in `write_at`.
        ensures others { IsTrue is_told →
            Apart name.now (files self.old) (files self.new) (may_leave self.old) (may_leave self.new) }
        ensures quiet { IsTrue is_told → said self.new ≡ said self.old }

        ensures stops { IsTrue is_told →
            Follows (TornByCut (files self.old name.now) len)
            (may_leave self.old name.now) (may_leave self.new name.now) }
        ensures time { IsTrue is_told →
            Elapses (moment self.old) (moment self.new) (left_since self.old) (left_since self.new)
            (Here (may_leave self.new) (said self.new)) }

        ensures cause { HasCause (disk_faults self.old) (disk_faults self.new) result }
        ensures say_count { say_faults self.new ≡ say_faults self.old };

    /// Makes a file stay as it reads: after it a stop leaves just that. Of an absent file it does nothing.
    fn sync(&mut self, name: &str) -> Result<(), HostFault>
        ensures synced { OnOk result (IsTrue is_told →
            (c : Option (List ℕ)) → may_leave self.new name.now c → c ≡ files self.new name.now) }
        ensures alike { OnOk result (IsTrue is_told → files self.new name.now ≡ files self.old name.now) }

        // As in `write_at`.
        ensures others { IsTrue is_told →
            Apart name.now (files self.old) (files self.new) (may_leave self.old) (may_leave self.new) }
        ensures quiet { IsTrue is_told → said self.new ≡ said self.old }

        ensures stops { IsTrue is_told →
            (c : Option (List ℕ)) → may_leave self.new name.now c → may_leave self.old name.now c }
        ensures time { IsTrue is_told →
            Elapses (moment self.old) (moment self.new) (left_since self.old) (left_since self.new)
            (Here (may_leave self.new) (said self.new)) }

        ensures cause { HasCause (disk_faults self.old) (disk_faults self.new) result }
        ensures say_count { say_faults self.new ≡ say_faults self.old };

    /// Says bytes. After an error some first ones of them were said, or none or all.
    fn say(&mut self, bytes: &[u8]) -> Result<(), SayFault>
        ensures said { OnOk result (IsTrue is_told → said self.new ≡ said self.old ++ bytes.now) }
        ensures part { IsTrue is_told → SaidPart (said self.old) bytes.now (said self.new) }

        ensures alike { IsTrue is_told → (n : List ℕ) → files self.new n ≡ files self.old n }
        ensures stops { IsTrue is_told → SameStops (may_leave self.old) (may_leave self.new) }
        ensures time { IsTrue is_told →
            Elapses (moment self.old) (moment self.new) (left_since self.old) (left_since self.new)
            (WhileSaying (may_leave self.new) (said self.old) bytes.now) }

        ensures cause { HasCause (say_faults self.old) (say_faults self.new) result }
        ensures disk_count { disk_faults self.new ≡ disk_faults self.old };

    /// The files as they read are one of the states that a stop may leave.
    ghost read_counts: { (h : Self) (n : List ℕ) → IsTrue is_told → may_leave h n (files h n) };

    /// This moment is one of those since any earlier one.
    ghost counts_now: { (h : Self) (t : ℕ) (f : Files) (s : List ℕ) → IsTrue is_told →
        t ≤ moment h → Here (may_leave h) (said h) f s → left_since h t f s };

    /// Since this moment there was no other.
    ghost only_now: { (h : Self) (f : Files) (s : List ℕ) → IsTrue is_told →
        left_since h (moment h) f s → Here (may_leave h) (said h) f s };
}
